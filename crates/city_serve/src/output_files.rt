//! Replaces files whole.
ghost use Rattle.std.specs.Prelude.{◌≡◌, ◌≢◌, ℕ, Bool, true, List, [], ◌∷◌, Some, None, IfSome, IsSome, IsNone, IfErr};
ghost use Rattle.std.specs.Prelude.{OnOk, is_ok, is_some, if◌then◌else◌};
ghost use Rattle.std.specs.Io.KnownBytes.{Keeps};
ghost use Rattle.city_serve.specs.Destinations.{IsLockFault, IsLookFault};
ghost use Rattle.city_serve.specs.Steps.{Step, Takes, steps_if};

use crate::fault::ServeFault;
use crate::text_files::TextFiles;
use std::io::Write;

/// Files, replaced whole: a text is written to a new file beside the old one, and the new file
/// takes the old one's name.
///
/// Each step that is done is taken down, and each keeps whether it was refused. Until a new file
/// takes a name, all names keep their texts.
pub trait OutputFiles: TextFiles {
    /// A new file, before it takes a name.
    type New: Write + Drop;

    /// Everything written to the new file has reached the device.
    ghost is_synced: { Self.New → Bool };

    /// Whether the contents of new files are known, and so the texts they give to names.
    ghost are_known: { Bool };

    /// Whether a step was refused, or a new file given up.
    ghost have_failed: { Self → Bool };

    /// Whether two paths lead to one file. The same path does.
    fn are_same(&self, one: &str, other: &str) -> bool
        ensures { one.now ≡ other.now → result ≡ true };

    /// Keeps all other runs from the file of this path, until it is unlocked or the process ends. If
    /// another run holds it, waits for so many seconds at most.
    ///
    /// `InUse` if it is held all the time, `Write` if it can't be locked.
    fn lock(&mut self, path: &str, wait: usize) -> Result<(), ServeFault>
        ensures texts { Self.text self.new ≡ Self.text self.old }
        ensures unfailed { OnOk result (have_failed self.new ≡ have_failed self.old) }
        ensures fault { IfErr result (IsLockFault (have_failed self.new)) }
        ensures steps { Takes (Self.steps self.old) (Self.steps self.new)
            (steps_if (is_ok result) (Step.Locked path.now)) };

    /// Makes a new, empty file beside the file of this path, and takes no existing one. The seed is
    /// for its name.
    fn create(&mut self, path: &str, seed: u64) -> Option<Self::New>
        ensures empty { IfSome result (λ new. Self.New.contents new ≡ (if are_known then Some [] else None)) }
        ensures texts { Self.text self.new ≡ Self.text self.old }
        ensures steps { Takes (Self.steps self.old) (Self.steps self.new)
            (steps_if (is_some result) (Step.Created path.now)) }
        ensures unfailed { IsSome result → have_failed self.new ≡ have_failed self.old }
        ensures failed { IsNone result → have_failed self.new ≡ true };

    /// Brings all written bytes to the device, and says whether it succeeded.
    fn sync(&mut self, new: &mut Self::New) -> bool
        ensures synced { result ≡ true → is_synced new.new ≡ true }
        ensures contents { Keeps (Self.New.contents new.old) (Self.New.contents new.new) }
        ensures texts { Self.text self.new ≡ Self.text self.old }
        ensures steps { Takes (Self.steps self.old) (Self.steps self.new) (steps_if result Step.Synced) }
        ensures unfailed { result ≡ true → have_failed self.new ≡ have_failed self.old }
        ensures failed { result ≢ true → have_failed self.new ≡ true };

    /// Looks at the file of this path again. If a text was read from it, it is still that text.
    ///
    /// `Changed` if it is another, `Write` if the look is refused.
    fn look_again(&mut self, path: &str) -> Result<(), ServeFault>
        ensures texts { Self.text self.new ≡ Self.text self.old }
        ensures unfailed { OnOk result (have_failed self.new ≡ have_failed self.old) }
        ensures fault { IfErr result (IsLookFault (have_failed self.new)) }
        ensures steps { Takes (Self.steps self.old) (Self.steps self.new)
            (steps_if (is_ok result) (Step.LookedAt path.now)) };

    /// Gives the name to the new file in one step, and says whether it succeeded. If not, the file
    /// is removed.
    fn rename(&mut self, new: Self::New, path: &str) -> bool
        requires { is_synced new ≡ true }
        ensures placed { result ≡ true
            → Self.text self.new path.now ≡ (if are_known then Self.New.contents new else None) }
        ensures others { (other : List ℕ) → other ≢ path.now → Self.text self.new other ≡ Self.text self.old other }
        ensures texts { result ≢ true → Self.text self.new ≡ Self.text self.old }
        ensures steps { Takes (Self.steps self.old) (Self.steps self.new) (steps_if result (Step.Renamed path.now)) }
        ensures unfailed { result ≡ true → have_failed self.new ≡ have_failed self.old }
        ensures failed { result ≢ true → have_failed self.new ≡ true };

    /// Brings the names beside this path to the device, and says whether it succeeded.
    fn sync_folder(&mut self, path: &str) -> bool
        ensures texts { Self.text self.new ≡ Self.text self.old }
        ensures steps { Takes (Self.steps self.old) (Self.steps self.new)
            (steps_if result (Step.FolderSynced path.now)) }
        ensures unfailed { result ≡ true → have_failed self.new ≡ have_failed self.old }
        ensures failed { result ≢ true → have_failed self.new ≡ true };

    /// Gives up a new file, and removes it unless that is refused.
    fn give_up(&mut self, new: Self::New)
        ensures texts { Self.text self.new ≡ Self.text self.old }
        ensures steps { Takes (Self.steps self.old) (Self.steps self.new) (Step.GivenUp ∷ []) }
        ensures failed { have_failed self.new ≡ true };

    /// Lets other runs have the locked file.
    fn unlock(&mut self)
        ensures texts { Self.text self.new ≡ Self.text self.old }
        ensures steps { Takes (Self.steps self.old) (Self.steps self.new) (Step.Unlocked ∷ []) }
        ensures unfailed { have_failed self.new ≡ have_failed self.old };
}
