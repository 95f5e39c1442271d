//! The states of the eraseblocks of an image, as JSON.

ghost use Rattle.std.specs.Prelude.{◌≡◌, IfOk};
ghost use Rattle.serde_json.specs.View.{view};
ghost use Rattle.ubi_json.specs.Check.{check_data, counts_data, states_data};
ghost use Rattle.ubi_json.specs.Line.{IsLineOf};
ghost use Rattle.ubi_json.specs.Words.{count_of, same_state};

use crate::line::line_of;
use crate::told::{numbers_object, put_numbers};
use serde_json::{Map, Value, put};
use std::alloc::{AllocError, Global};
use ubi_volume::{BlockState, Surveyed};

fn is_same(state: BlockState, of: BlockState) -> bool
    ensures { result ≡ same_state state of }
{
    state == of
}

/// How many eraseblocks have a state.
pub fn count_of(states: &[BlockState], of: BlockState) -> usize
    ensures { result ≡ count_of states.now of }
{
    let mut found = 0;
    for state in states {
        if is_same(*state, of) {
            found += 1;
        }
    }
    found
}

/// How many eraseblocks have each state.
fn states_value(alloc: Global, states: &[BlockState]) -> Result<Value, AllocError>
    ensures { IfOk result (λ v. view v ≡ states_data states.now) }
{
    let numbers = [
        ("blank", count_of(states, BlockState::Blank) as u64),
        ("corrupt", count_of(states, BlockState::Corrupt) as u64),
        ("dropped", count_of(states, BlockState::Dropped) as u64),
        ("free", count_of(states, BlockState::Free) as u64),
        ("garbage", count_of(states, BlockState::Garbage) as u64),
        ("orphan", count_of(states, BlockState::Orphan) as u64),
        ("stale", count_of(states, BlockState::Stale) as u64),
        ("table", count_of(states, BlockState::Table) as u64),
        ("used", count_of(states, BlockState::Used) as u64),
    ];
    numbers_object(alloc, &numbers)
}

/// An image that is accepted: how many eraseblocks it has, its image sequence number, the mean erase counter, the counts
/// of the states, and the greatest sequence number.
fn counts_value(
    alloc: Global,
    blocks: u64,
    image_seq: u32,
    mean_counter: u32,
    states: Value,
    top_sqnum: u64,
) -> Result<Value, AllocError>
    ensures { IfOk result (λ v. view v ≡ counts_data blocks image_seq mean_counter (view states) top_sqnum) }
{
    let numbers = [
        ("blocks", blocks),
        ("image_seq", u64::from(image_seq)),
        ("mean_counter", u64::from(mean_counter)),
        ("top_sqnum", top_sqnum),
    ];
    let mut members = Map::new(alloc);
    put_numbers(alloc, &mut members, &numbers)?;
    put(&mut members, alloc, "accepted", Value::Bool(true))?;
    put(&mut members, alloc, "states", states)?;
    Ok(Value::Object(members))
}

/// The object of an image that is surveyed: how many eraseblocks have each state, and the numbers of the image.
///
/// # Errors
///
/// Memory ran out.
pub fn check_value(alloc: Global, surveyed: &Surveyed) -> Result<Value, AllocError>
    ensures { IfOk result (λ v. view v ≡ check_data surveyed.now) }
{
    let states = surveyed.states();
    let counted = states_value(alloc, states)?;
    counts_value(
        alloc,
        states.len() as u64,
        surveyed.image_seq(),
        surveyed.mean_ec(),
        counted,
        surveyed.top_sqnum(),
    )
}

/// The line of an image that is surveyed: how many eraseblocks have each state, and the numbers of the image.
///
/// # Errors
///
/// Memory ran out.
pub fn check_line(alloc: Global, surveyed: &Surveyed) -> Result<Vec<u8>, AllocError>
    ensures { IfOk result (λ line. IsLineOf (check_data surveyed.now) line.items) }
{
    let value = check_value(alloc, surveyed)?;
    line_of(alloc, &value)
}
