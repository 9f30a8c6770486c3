//! The name in a file, beside that under which the top has it.

ghost use Rattle.std.specs.Prelude.{◌≡◌};
ghost use Rattle.cg_finding.specs.Found.{sees};
ghost use Rattle.cg_design.specs.Inner.{misnamed};

use cg_finding::Found;
use cg_hjson::Tree;
use cg_keys::{members, place_at, text_at};

/// The string at `name`, where it is another one than this.
#[tactic(auto, unfolding(crate::specs::Inner::misnamed))]
pub(crate) fn first_misnamed(tree: &Tree, name: &str) -> Option<Found<'static>>
    ensures { sees result ≡ misnamed name.now tree.now }
{
    let members = members(tree);
    match text_at(members, "name") {
        Some(text) => {
            if text == name {
                None
            } else {
                Some(Found::bad_name(place_at(members, "name", tree.at), "name"))
            }
        }
        None => None,
    }
}
