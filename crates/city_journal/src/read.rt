//! A whole journal, read.
ghost use Rattle.std.specs.Prelude.{◌≡◌, ◌≢◌, ◌^◌, ◌<◌, ◌++◌, ◌∷◌, [], ◌⊎◌, ℕ, List, Bool, map, drop};
ghost use Rattle.std.specs.Prelude.{IfErr, IfOk, MatchOption, MatchResult, OnErr};
ghost use Rattle.city_journal.specs.LineTexts.{base_text};
ghost use Rattle.city_journal.specs.Lines.{EndsLine, IsLine, lines_text};
ghost use Rattle.std.specs.Bool.{Decides};
ghost use Rattle.std.specs.List.{AllByRecursion};
ghost use Rattle.city_live.specs.Noting.{Noted};
ghost use Rattle.city_journal.specs.Places.{HasOther, IsLastPlace, place_read};
ghost use Rattle.city_journal.specs.Reads.{AreNext, IsJournal, IsReadAs, all_said, begun, reading_so_far, so_far};
ghost use Rattle.city_journal.specs.Restarts.{IsLeftOver, Restarts};
ghost use Rattle.city_journal.specs.Said.{Said, said_text};
ghost use Rattle.city_journal.specs.Skipped.{IsSkipped, TellsSkipped};
ghost use Rattle.city_journal.specs.Sums.{IsSum};
ghost use Rattle.city_journal.specs.declared.fault.JournalFault.{JournalFault};
ghost use Rattle.city_journal.specs.declared.reading.Place.{Place};

use crate::fault::JournalFault;
use crate::keys::Keys;
use crate::model_sum::ModelSum;
use crate::reading::{Place, Reading, Taken};
use memchr::memchr;
use std::alloc::Global;

/// A commit of a journal: the text of its script, and the version it made.
#[derive(Clone, Copy, Drop)]
pub struct Commit<'a> {
    pub script: &'a [u8],
    pub version: u64,
}

/// A journal, as read.
#[derive(Drop)]
pub struct ReadJournal<'a> {
    commits: Vec<Commit<'a>>,
    places: Vec<Place>,
    keys: Keys,
    version: u64,
    whole: usize,
    lines: usize,
    dropped: bool,
}

impl<'a> ReadJournal<'a> {
    /// How many of its bytes stand: whole lines, without a cut last one. Doesn't allocate.
    pub fn whole(&self) -> usize
        ensures { result ≡ self.now.whole }
    {
        self.whole
    }

    /// How many lines it has, a cut one among them. Doesn't allocate.
    pub fn lines(&self) -> usize {
        self.lines
    }

    /// Whether its last line was cut, and is dropped. Doesn't allocate.
    pub fn is_cut(&self) -> bool
        ensures { result ≡ self.now.dropped }
    {
        self.dropped
    }

    /// The version behind its last commit. Doesn't allocate.
    pub fn version(&self) -> u64
        ensures { result ≡ self.now.version }
    {
        self.version
    }

    /// The commits behind the last place with this sum of the model. Doesn't allocate.
    ///
    /// `OtherModel` if there is none.
    pub fn commits_behind(&self, model: &ModelSum) -> Result<&[Commit<'a>], JournalFault>
        ensures found { IfOk result (λ cs. (n : ℕ)
            × IsLastPlace model.now.bytes (map place_read self.now.places.items) n
            × (cs.now ≡ drop n self.now.commits.items)) }
        ensures nowhere { OnErr result
            (AllByRecursion (HasOther model.now.bytes) (map place_read self.now.places.items)) }
        ensures told { IfErr result (λ f. (front : List Place) (p : Place) → self.now.places.items ≡ front ++ p ∷ []
            → f ≡ JournalFault.OtherModel p.sum model.now) }
    {
        match last_place(self.places.as_slice(), model) {
            Some(place) => {
                let before = place.min(self.commits.len());
                Ok(&self.commits.as_slice()[before..])
            }
            None => Err(other_model(self.places.as_slice(), model)),
        }
    }

    /// Whether a save of the model with this sum is all that stands behind its last commit. Doesn't allocate.
    pub fn is_saved_as(&self, model: &ModelSum) -> bool {
        match self.places.last() {
            Some(place) => {
                self.places.len() > 1 && place.sum == *model && place.before >= self.commits.len()
            }
            None => false,
        }
    }

    /// The keys of its last commits, and of commits before it.
    pub fn into_keys(self) -> Keys {
        self.keys
    }
}

/// How many commits stand before the last of these places with this sum, if there is one. Doesn't allocate.
fn last_place(places: &[Place], model: &ModelSum) -> Option<usize>
    ensures { MatchOption result (AllByRecursion (HasOther model.now.bytes) (map place_read places.now))
        (λ n. IsLastPlace model.now.bytes (map place_read places.now) n) }
{
    let mut found = None;
    for place in places {
        if is_same(&place.sum, model) {
            found = Some(place.before);
        }
    }
    found
}

/// Whether two sums are the same. Doesn't allocate.
fn is_same(sum: &ModelSum, other: &ModelSum) -> bool
    ensures { Decides result (sum.now.bytes ≡ other.now.bytes) }
{
    *sum == *other
}

/// The fault if no place has this sum: the last place's sum, and this one. Doesn't allocate.
fn other_model(places: &[Place], model: &ModelSum) -> JournalFault
    ensures { (front : List Place) (p : Place) → places.now ≡ front ++ p ∷ []
        → result ≡ JournalFault.OtherModel p.sum model.now }
{
    match places {
        [.., place] => JournalFault::OtherModel(place.sum, *model),
        [] => JournalFault::NoJournal,
    }
}

/// Reads a journal. A cut or damaged last line is dropped: the rest ends behind a newline.
pub fn read_journal(
    alloc: Global,
    bytes: &[u8],
    decimals: bool,
) -> Result<ReadJournal<'_>, JournalFault>
    ensures whole { IfOk result (λ journal. EndsLine bytes.now journal.whole) }
    ensures read { (sum : List ℕ) (version : ℕ) (ss : List Said) (torn : List ℕ)
        → IsJournal decimals sum version ss torn bytes.now
        → MatchResult result (IsReadAs (all_said (begun sum version) ss) torn bytes.now)
        (λ f. f ≡ JournalFault.OutOfMemory) }
    ensures skipped { (sum : List ℕ) (version : ℕ) (rest : List ℕ) → IsSum sum → version < 2 ^ 64
        → IsLine (base_text sum decimals version) → bytes.now ≡ base_text sum decimals version ++ 10 ∷ rest
        → IsSkipped (begun sum version) rest → MatchResult result (λ _. ⊥) TellsSkipped }
    ensures other_numbers { (sum : List ℕ) (other : Bool) (version : ℕ) (rest : List ℕ) → IsSum sum
        → version < 2 ^ 64 → IsLine (base_text sum other version) → other ≢ decimals
        → bytes.now ≡ base_text sum other version ++ 10 ∷ rest
        → MatchResult result (λ _. ⊥)
        (λ f. (f ≡ JournalFault.OtherNumbers other) ⊎ (f ≡ JournalFault.OutOfMemory)) }
    ensures left { (sum : List ℕ) (version : ℕ) (told more : List Noted)
        (l : IsLeftOver decimals sum version told more bytes.now)
        → MatchResult result (Restarts l) (λ f. f ≡ JournalFault.OutOfMemory) }
{
    read_whole(alloc, bytes, decimals)
}

/// The same of a journal by what its lines say.
fn read_whole(alloc: Global, bytes: &[u8], decimals: bool) -> Result<ReadJournal<'_>, JournalFault>
    ensures whole { IfOk result (λ journal. EndsLine bytes.now journal.whole) }
    ensures read { (sum : List ℕ) (version : ℕ) (ss : List Said) (torn : List ℕ)
        → IsJournal decimals sum version ss torn bytes.now
        → MatchResult result (IsReadAs (all_said (begun sum version) ss) torn bytes.now)
        (λ f. f ≡ JournalFault.OutOfMemory) }
    ensures skipped { (sum : List ℕ) (version : ℕ) (rest : List ℕ) → IsSum sum → version < 2 ^ 64
        → IsLine (base_text sum decimals version) → bytes.now ≡ base_text sum decimals version ++ 10 ∷ rest
        → IsSkipped (begun sum version) rest → MatchResult result (λ _. ⊥) TellsSkipped }
    ensures other_numbers { (sum : List ℕ) (other : Bool) (version : ℕ) (rest : List ℕ) → IsSum sum
        → version < 2 ^ 64 → IsLine (base_text sum other version) → other ≢ decimals
        → bytes.now ≡ base_text sum other version ++ 10 ∷ rest
        → MatchResult result (λ _. ⊥)
        (λ f. (f ≡ JournalFault.OtherNumbers other) ⊎ (f ≡ JournalFault.OutOfMemory)) }
{
    let Some(end) = memchr(b'\n', bytes) else {
        return Err(JournalFault::NoJournal);
    };
    let Some(reading) = Reading::begin(alloc, &bytes[..end])? else {
        return Err(JournalFault::NoJournal);
    };
    if reading.decimals != decimals {
        return Err(JournalFault::OtherNumbers(reading.decimals));
    }
    read_rest(reading, bytes, end + 1)
}

/// Reads the lines of a journal from the second on; it begins at this byte.
fn read_rest<'a>(
    mut reading: Reading<'a>,
    bytes: &'a [u8],
    start: usize,
) -> Result<ReadJournal<'a>, JournalFault>
    requires { EndsLine bytes.now start }
    ensures whole { IfOk result (λ journal. EndsLine bytes.now journal.whole) }
    ensures read { (ss : List Said) (torn : List ℕ) → AreNext (reading_so_far reading.entry) ss → IsLine torn
        → drop start bytes.now ≡ lines_text (map said_text ss) ++ torn
        → MatchResult result (IsReadAs (all_said (reading_so_far reading.entry) ss) torn bytes.now)
        (λ f. f ≡ JournalFault.OutOfMemory) }
    ensures skipped { IsSkipped (reading_so_far reading.entry) (drop start bytes.now)
        → MatchResult result (λ _. ⊥) TellsSkipped }
{
    let mut whole = start;
    let mut lines: usize = 1;
    while whole < bytes.len() {
        lines = lines.saturating_add(1);
        let Some(length) = memchr(b'\n', &bytes[whole..]) else {
            return Ok(read_so_far(reading, whole, lines, true));
        };
        let end = whole + length;
        match reading.take(&bytes[whole..end], lines)? {
            Taken::Stands => whole = end + 1,
            Taken::Damaged => {
                if end + 1 < bytes.len() {
                    return Err(JournalFault::BadLine(lines));
                }
                return Ok(read_so_far(reading, whole, lines, true));
            }
        }
    }
    Ok(read_so_far(reading, whole, lines, false))
}

/// The journal of the lines so far, with so many bytes; whether a last line is dropped.
fn read_so_far<'a>(
    reading: Reading<'a>,
    whole: usize,
    lines: usize,
    dropped: bool,
) -> ReadJournal<'a>
    ensures whole { result.whole ≡ whole }
    ensures read { reading_so_far reading.entry
        ≡ so_far result.commits.items result.places.items result.version }
    ensures dropped { result.dropped ≡ dropped }
{
    ReadJournal {
        commits: reading.commits,
        places: reading.places,
        keys: reading.keys,
        version: reading.version,
        whole,
        lines,
        dropped,
    }
}
