//! For which attempts of fewest moves a solution was entered.

ghost use Rattle.std.specs.Prelude.{◌≡◌, ◌≤◌, ◌-◌, ◌&&◌, ◌==◌, IsTrue, OnOk, ℕ, false};
ghost use Rattle.std.specs.Prelude.{if◌then◌else◌, slice_index_or, unwrap_or, option_map, length};
ghost use Rattle.std.specs.List.{list_any};
ghost use Rattle.commands.specs.{Accepted.is_solution, Accepted.solving_at, model.Cards.enters};
ghost use Rattle.commands.specs.model.Solved.{is_noted, HasRow, KeepsNotes};

use crate::outcomes::is_solution;
use attempts::NoMemory;
use std::alloc::Global;
use std::collections::HashMap;
use texts::Entered;

/// Of each number for which a solution was entered: for which of its attempts what was entered last
/// is a solution.
#[derive(Drop)]
pub(crate) struct Solutions {
    by_number: HashMap<u16, [bool; 5]>,
}

impl Solutions {
    /// No solution was entered yet.
    pub(crate) fn new(alloc: Global) -> Self
        ensures { (n k : ℕ) → is_noted result n k ≡ false }
    {
        Solutions {
            by_number: HashMap::new(alloc),
        }
    }

    /// Whether what was entered last for an attempt of a number is a solution.
    pub(crate) fn is_noted(&self, number: u16, attempt: u8) -> bool
        requires { 1 ≤ attempt }
        ensures { result ≡ is_noted self.now number attempt }
    {
        match self.by_number.get(&number) {
            Some(row) => is_set(row, attempt),
            None => false,
        }
    }

    /// Makes room for the notes of a number, where a solution is to be noted.
    pub(crate) fn make_room(&mut self, number: u16, solved: bool) -> Result<(), NoMemory>
        ensures room { OnOk result (IsTrue solved → HasRow self.new number) }
        ensures same { KeepsNotes self.old self.new }
    {
        if solved && !self.by_number.contains_key(&number) {
            self.by_number.insert(number, [false; 5])?;
        }
        Ok(())
    }

    /// Notes whether what was entered for an attempt of a number is a solution. There is room for a
    /// solution's note.
    pub(crate) fn note(&mut self, number: u16, attempt: u8, solved: bool)
        requires attempt { (1 ≤ attempt) × (attempt ≤ 5) }
        requires room { IsTrue solved → HasRow self.old number }
        ensures { (n k : ℕ) → 1 ≤ k
            → is_noted self.new n k
            ≡ (if n == number && k == attempt then solved else is_noted self.old n k) }
    {
        if let Some(row) = self.by_number.get_mut(&number) {
            row[usize::from(attempt) - 1] = solved;
        }
    }

    /// Notes of each attempt of a number for which a card enters something whether that is a
    /// solution. There is room for a solution's note.
    pub(crate) fn note_card(&mut self, number: u16, now: &[Option<Entered>])
        requires few { length now.now ≤ 5 }
        requires room { IsTrue (list_any (enters is_solution) now.now) → HasRow self.old number }
        ensures { (n k : ℕ) → 1 ≤ k
            → is_noted self.new n k
            ≡ (if n == number then unwrap_or (solving_at k 1 now.now) (is_noted self.old n k)
            else is_noted self.old n k) }
    {
        if let Some(row) = self.by_number.get_mut(&number) {
            note_row(row, now);
        }
    }
}

/// Sets the flag of each attempt for which a card enters something; the flags are those of the
/// attempts in order.
fn note_row(row: &mut [bool; 5], now: &[Option<Entered>])
    requires { length now.now ≤ 5 }
    ensures { (k : ℕ) → slice_index_or row.new k false
        ≡ unwrap_or (solving_at k 0 now.now) (slice_index_or row.old k false) }
{
    for at in 0..now.len() {
        row[at] = noted(&now[at], row[at]);
    }
}

/// Whether an attempt has a solution once a card enters something for it, or keeps it.
fn noted(outcome: &Option<Entered>, before: bool) -> bool
    ensures { result ≡ unwrap_or (option_map is_solution outcome.now) before }
{
    match outcome {
        Some(entered) => is_solution(entered),
        None => before,
    }
}

/// Whether what a card enters for an attempt is a solution.
fn enters_solution(outcome: &Option<Entered>) -> bool
    ensures { result ≡ enters is_solution outcome.now }
{
    match outcome {
        Some(entered) => is_solution(entered),
        None => false,
    }
}

/// Whether a card enters a solution.
pub(crate) fn has_solution(now: &[Option<Entered>]) -> bool
    ensures { result ≡ list_any (enters is_solution) now.now }
{
    now.iter().any(|outcome| enters_solution(outcome))
}

/// Whether an attempt's flag is set; attempts are counted from 1.
fn is_set(row: &[bool; 5], attempt: u8) -> bool
    requires { 1 ≤ attempt }
    ensures { result ≡ slice_index_or row.now (attempt - 1) false }
{
    match row.get(usize::from(attempt) - 1) {
        Some(flag) => *flag,
        None => false,
    }
}
