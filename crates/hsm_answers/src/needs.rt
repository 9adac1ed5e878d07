//! Needs of a message.
ghost use Rattle.std.specs.Prelude.{◌≡◌};
ghost use Rattle.hsm_answers.specs.Checks.{category_of};
ghost use Rattle.hsm_answers.specs.Given.{host_activity};

use hsm_auth::{Activity, Category, Place};
use hsm_types::{Act, KeyType};

// The category of an act.
fn category_of(act: Act) -> Category
    ensures { result ≡ category_of act }
{
    match act {
        Act::Generate => Category::Generate,
        Act::Import => Category::Import,
        Act::Export => Category::Export,
    }
}

/// The activity of an act on the type, at a host, under the LMK set.
pub fn host_activity(act: Act, ty: KeyType, set: u8) -> Activity
    ensures { result ≡ host_activity act ty set }
{
    Activity {
        category: category_of(act),
        ty: Some(ty),
        place: Some(Place::Host),
        set: Some(set),
    }
}
