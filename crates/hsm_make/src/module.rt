//! The module that runs a made script.

ghost use Rattle.std.specs.Prelude.{◌≡◌, map};
ghost use Rattle.hsm_lmk.specs.Sealing.{pair_key};
ghost use Rattle.hsm_config.specs.Rules.{test_pairs};
ghost use Rattle.hsm_make.specs.Settings.{made_config, made_module};

use arrayvec::ArrayVec;
use hsm_config::{Config, test_pairs};
use hsm_lmk::{LmkSet, set_at};
use hsm_rows::Module;

/// The module that runs a made script: a header of 4 bytes, the test LMK set, one host lane and the seed of zeros. The digests of
/// its officers' words are zeros, since no message of a made script gives words.
pub fn made_module() -> Module
    ensures { result ≡ made_module }
{
    made_config().module([0; 32])
}

// Its LMK set.
#[tactic(auto, using(crate::proofs::SettingsLaws::some_set, crate::proofs::SettingsLaws::first_set))]
pub(crate) fn test_set(settings: &Module) -> &LmkSet
    requires { settings.now ≡ made_module }
    ensures { result.now ≡ map pair_key test_pairs }
{
    set_at(settings.lmks.as_slice(), 0)
}

// Nothing opens the ports.
#[tactic(auto, unfolding(crate::specs::Settings::made_config))]
fn made_config() -> Config
    ensures { result ≡ made_config }
{
    let mut host_ports = ArrayVec::new();
    host_ports.push(2);
    Config {
        header: 4,
        officers: [[0; 32]; 2],
        pairs: test_pairs(),
        console_port: 1,
        host_ports,
        accept: 1,
    }
}
