//! Fewest moves: the result of a solution against its scramble (WCA Regulations, article E).
#![tactic(auto)]

ghost use Rattle.std.specs.Prelude.{◌≡◌, ◌≤◌, ◌↔◌, IsTrue, length};
ghost use Rattle.cube.specs.{Turns.after, notation.Notation.turn_count};
ghost use Rattle.attempts.specs.Attempts.{IsResult};
ghost use Rattle.fmc_check.specs.Fewest.{Solves, result_of};

mod laws;

pub use attempts::Fm;
use cube::notation::count;
use cube::{Cube, Move};
pub use laws::{solution_is_tested, solved_is_tested};

/// The most moves that a solution may have, rotations included (WCA Regulations, article E).
pub const MOST_MOVES: usize = 80;

/// The result of a solution against its scramble.
///
/// It is the number of the solution's moves in the outer block turn metric (WCA Regulations,
/// article 12) where the solution has at most 80 moves, rotations included, and the scramble and
/// then the solution leave each side of a solved cube with one colour, however the cube is held at
/// the end. Otherwise it is DNF. Takes no memory, and a constant time for each move.
pub fn check(scramble: &[Move], solution: &[Move]) -> Fm
    ensures value { result ≡ result_of scramble.now solution.now }
    ensures solved { Solves scramble.now solution.now
        → result ≡ Fm.Moves (turn_count solution.now) }
    ensures unsolved { ¬ Solves scramble.now solution.now → result ≡ Fm.Dnf }
    ensures in_range { IsResult result }
{
    solution_is_tested();
    if solves(scramble, solution) {
        Fm::Moves(count(solution))
    } else {
        Fm::Dnf
    }
}

/// Whether a solution has at most 80 moves and solves the scramble.
fn solves(scramble: &[Move], solution: &[Move]) -> bool
    ensures solves { IsTrue result ↔ Solves scramble.now solution.now }
    ensures short { IsTrue result → length solution.now ≤ 80 }
{
    if solution.len() > MOST_MOVES {
        return false;
    }
    let mut cube = Cube::solved();
    turn_all(&mut cube, scramble);
    turn_all(&mut cube, solution);
    cube.is_solved()
}

/// Makes moves in order.
fn turn_all(cube: &mut Cube, moves: &[Move])
    ensures { cube.new ≡ after moves.now cube.old }
{
    for turn in moves {
        cube.turn(*turn);
    }
}
