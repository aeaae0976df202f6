//! A script: a list of commands, run as one transaction.
ghost use Rattle.std.specs.Prelude.{◌≡◌, ◌<◌, true, IfOk, IfErr, is_ok, length, take, List, ℕ};
ghost use Rattle.city_model.specs.CityMap.{CityMap};
ghost use Rattle.city_model.specs.Marks.{Snapshot, unmarked, IsSoundView};
ghost use Rattle.city_model.specs.Relations.{IsSound};
ghost use Rattle.city_model.specs.Runs.{Trace};
ghost use Rattle.city_model.specs.Scripts.{is_end, ends_once};
ghost use Rattle.city_model.specs.TraceLaw.{TraceLaw};
ghost use Rattle.city_model.specs.declared.command.Reply.{Reply};

use crate::command::Command;
use city_members::sequence::Sequence;
use city_members::text::Text;
use std::marker::Model;

/// A name and commands; exactly the last command is `Commit` or `Abort`.
#[derive(Drop)]
pub struct Script {
    name: Text,
    commands: Sequence<Command>,
}

impl Model for Script {
    ghost use Rattle.std.specs.Prelude.{◌≡◌, true, List, ℕ};
    ghost use Rattle.city_model.specs.declared.command.Command.{Command};

    ghost Value = { List ℕ × List Command };

    ghost use Rattle.std.specs.Coded.{codes};
    ghost use Rattle.city_members.specs.internal.DataCode.{coded_members};

    ghost coded = { Prim.hlevel (codes, coded_members) };

    ghost view = { λ s. (s.name, s.commands) };

    ghost use Rattle.city_model.specs.Scripts.{ends_once};

    ghost invariant = { λ s. ends_once s.commands ≡ true };
}

impl Script {
    /// A script, or its parts back unless the last command, and no other, is Commit
    /// or Abort. Doesn't allocate.
    pub fn new(name: Text, commands: Sequence<Command>) -> Result<Script, (Text, Sequence<Command>)>
        ensures checked { is_ok result ≡ ends_once commands }
        ensures made { IfOk result (λ s. s ≡ (name, commands)) }
        ensures back { IfErr result (λ parts. parts ≡ (name, commands)) }
    {
        if ends_once(commands.as_slice()) {
            Ok(Script { name, commands })
        } else {
            Err((name, commands))
        }
    }

    /// The script's name. Doesn't allocate.
    pub fn name(&self) -> &Text
        ensures { result.now ≡ self.now.0 }
    {
        &self.name
    }

    /// The script's commands; the last one ends it. Doesn't allocate.
    ///
    /// All but the last are answered, whatever the city is. On a sound city they leave a sound
    /// city, and the city at each mark is sound; and so do the first n of them. They read and write
    /// only locked ids.
    pub fn commands(&self) -> &[Command]
        ensures commands { result.now ≡ self.now.1 }
        ensures ends { ends_once self.now.1 ≡ true }
        ensures goes_on { (v : Snapshot) (k : ℕ) → k < length self.now.1
            → (replies : List Reply) × (w : Snapshot) × Trace v (take k self.now.1) replies w }
        ensures sound { (m : CityMap) (k : ℕ) (replies : List Reply) (w : Snapshot) → IsSound m
            → Trace (unmarked m) (take k self.now.1) replies w → IsSoundView w }
        ensures frame { (m : CityMap) (k : ℕ) → IsSound m → TraceLaw m (take k self.now.1) }
    {
        self.commands.as_slice()
    }
}

/// Whether a command ends a script.
pub fn is_end(command: &Command) -> bool
    ensures { result ≡ is_end command.now }
{
    matches!(command, Command::Commit | Command::Abort)
}

/// Whether exactly the last of the commands ends a script.
fn ends_once(commands: &[Command]) -> bool
    ensures { result ≡ ends_once commands.now }
{
    for (i, command) in commands.iter().enumerate() {
        if is_end(command) {
            return i + 1 == commands.len();
        }
    }
    false
}
