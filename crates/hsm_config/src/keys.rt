//! The keys of a document.

ghost use Rattle.std.specs.Prelude.{◌≡◌};
ghost use Rattle.toml.specs.View.{table_view};
ghost use Rattle.hsm_config.specs.Rules.{has_known_keys, is_known};

use toml::Table;

#[tactic(auto, unfolding(crate::specs::Rules::is_known))]
fn is_known(key: &str) -> bool
    ensures { result ≡ is_known key.now }
{
    key == "version"
        || key == "header"
        || key == "officers"
        || key == "lmk"
        || key == "console_port"
        || key == "host_ports"
        || key == "accept"
}

// Whether every key is one of the seven.
pub fn has_known_keys(table: &Table) -> bool
    ensures { result ≡ has_known_keys (table_view table.now) }
{
    for key in table.keys() {
        if !is_known(key.as_str()) {
            return false;
        }
    }
    true
}
