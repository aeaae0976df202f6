//! The form of a script, with its commands unread.
ghost use Rattle.std.specs.Prelude.{◌≡◌, true, map};
ghost use Rattle.serde_json.specs.View.{view};
ghost use Rattle.city_tokens.specs.script.Scripts.{word_ends};

use city_members::text::Text;
use serde_json::Value;

/// The parts of a script's tree.
#[derive(Drop)]
pub struct ScriptForm {
    pub name: Text,
    /// The trees of the commands.
    pub commands: Vec<Value>,
    /// The tree of the script's own vertices, if it has any.
    pub vertices: Option<Value>,
    /// The last command, and no other, is a word that ends the script.
    ghost ended: { word_ends (map view commands.items) ≡ true },
}
