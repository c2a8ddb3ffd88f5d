// Numbers in eight places, put there and compared with each other in few instructions.
#![tactic(auto)]

ghost use Rattle.std.specs.Prelude.{cond, ◌≡◌, ◌≤◌};
ghost use Rattle.differ.specs.Differ.{all_differ, differs_on, places, Twice};
ghost use Rattle.octets.specs.Search.{all};

// How many places there are: as many as a line has room for holds, and for children.
const PLACES: usize = 8;

// The first of two numbers where a test passes, else the second.
pub fn pick(b: bool, x: u64, y: u64) -> u64
    ensures { result ≡ cond b x y }
{
    if b { x } else { y }
}

// The numbers twice over, so that each place has all the others behind it.
fn twice(w: [u64; PLACES]) -> [u64; 2 * PLACES]
    ensures { Twice w result }
{
    [
        w[0], w[1], w[2], w[3], w[4], w[5], w[6], w[7], w[0], w[1], w[2], w[3], w[4], w[5], w[6],
        w[7],
    ]
}

// Whether each of the first eight numbers is another than the one d places on.
fn differ_on(v: [u64; 2 * PLACES], d: usize) -> bool
    requires { d ≤ places }
    ensures { result ≡ all places (differs_on v d) }
{
    let mut differ = true;
    for i in 0..PLACES {
        differ &= v[i] != v[i + d];
    }
    differ
}

// Whether no two places hold the same number.
pub fn all_differ(w: [u64; PLACES]) -> bool
    ensures { result ≡ all_differ w }
{
    let v = twice(w);
    differ_on(v, 1) & differ_on(v, 2) & differ_on(v, 3) & differ_on(v, 4)
}
