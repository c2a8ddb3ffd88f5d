// The reader of the configuration text.
ghost use Rattle.std.specs.Prelude.{◌≡◌, ◌≤◌, length, option_map, IfSome};
ghost use Rattle.parser.specs.Section.{NodeRead};
ghost use Rattle.config.specs.Settings.{config_of, settings_in, Room, Within};

use crate::list::collect;
use config::{Config, Kind, Node};
use entries::line::home_at;
use entries::nodes::node_at;
use entry::field::Preferred;
use fields::field::Field;

// What `node` says at a place, where a text may have none, and where the entries behind it begin.
fn optional_node(text: &[u8], at: usize) -> Field<Option<Node>>
    requires { at ≤ length text.now }
    ensures { NodeRead text.now at result }
{
    match node_at(text, at) {
        Some(node) => Field {
            value: Some(node.value),
            next: node.next,
        },
        None => Field {
            value: None,
            next: at,
        },
    }
}

// Reads a configuration text; its `plmn` entries and barred PLMNs are left in two lists.
pub fn parse(text: &[u8], preferred: &mut [Preferred], barred: &mut [Preferred]) -> Option<Config>
    requires { Room preferred.old barred.old }
    ensures result_after { option_map (settings_in preferred.new barred.new) result ≡ config_of text.now }
    ensures within { IfSome result (Within text.now preferred.new barred.new) }
{
    let home = home_at(text)?;
    let node = optional_node(text, home.next);
    let plmns = collect(text, node.next, Kind::Plmn, preferred)?;
    let bars = collect(text, plmns.next, Kind::Bar, barred)?;
    if bars.next != text.len() {
        return None;
    }
    Some(Config {
        home: home.value,
        node: node.value,
        plmn_count: plmns.count,
        bar_count: bars.count,
    })
}
