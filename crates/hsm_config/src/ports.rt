//! The ports of a document.

ghost use Rattle.std.specs.Prelude.{◌≡◌, ◌∷◌, Some, None, if◌then◌else◌, option_map};
ghost use Rattle.toml.specs.View.{table_view};
ghost use Rattle.hsm_config.specs.Rules.{all_different, has_host_ports, host_ports_of};

use crate::values::{elements_at, number_within};
use arrayvec::ArrayVec;
use toml::Table;

// The ports of the host lanes, 1 to 64 of them.
pub fn host_ports_of(table: &Table) -> Option<ArrayVec<u16, 64>>
    ensures { option_map (λ ports. ports.items) result ≡ (if has_host_ports (table_view table.now) then Some (host_ports_of (table_view table.now)) else None) }
{
    let values = elements_at(table, "host_ports");
    if values.is_empty() || values.len() > 64 {
        return None;
    }
    let mut ports = ArrayVec::new();
    for value in values {
        match number_within(value, 1, u16::MAX) {
            Some(port) => ports.push(port),
            None => return None,
        }
    }
    Some(ports)
}

// Whether no two of the ports are equal.
fn all_different(ports: &[u16]) -> bool
    ensures { result ≡ all_different ports.now }
{
    match ports {
        [] => true,
        [port, rest @ ..] => !rest.contains(port) && all_different(rest),
    }
}

// Whether no two of all ports are equal.
pub fn are_different(console_port: u16, host_ports: &[u16]) -> bool
    ensures { result ≡ all_different (console_port ∷ host_ports.now) }
{
    !host_ports.contains(&console_port) && all_different(host_ports)
}
