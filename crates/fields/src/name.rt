// Node names.
ghost use Rattle.std.specs.Prelude.{◌≤◌, ◌≡◌, length};
ghost use Rattle.entry.specs.Field.{is_name_character};
ghost use Rattle.fields.specs.Read.{NameEndIs};

// Whether an octet may stand in a node name.
fn is_name_character(c: u8) -> bool
    ensures { result ≡ is_name_character c }
{
    c.is_ascii_alphanumeric() | (c == b'-') | (c == b'.')
}

// The first octet from a place on that may not stand in a node name: where it stands, or the end of the text.
pub fn name_end(text: &[u8], at: usize) -> usize
    requires { at ≤ length text.now }
    ensures { NameEndIs text.now at result }
{
    for i in at..text.len() {
        if !is_name_character(text[i]) {
            return i;
        }
    }
    text.len()
}
