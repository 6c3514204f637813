// Scripts that are made.
ghost use Rattle.std.specs.Prelude.{◌≡◌, ◌≤◌, IfOk, string_bytes};
ghost use Rattle.std.specs.List.{AllByRecursion};
ghost use Rattle.script_text.specs.Ranges.{IsInRange};
ghost use Rattle.script_text.specs.Make.{after_draw, draw, founding, key_of, line_with, lines_up_to, made, once_step, state_before};
ghost use Rattle.script_text.specs.Make.{step_by, step_drawn, value_of};

use crate::line::Line;
use gr_ids::{Blob, Memory, Mode, Sequence, SessionId};
use group_rules::{Operator, Step};
use key_items::{Change, ChangeKind, Item};
use std::alloc::{AllocError, Global};

/// The multiplier and the increment of the generator (D. E. Knuth's MMIX).
const MULTIPLIER: u64 = 6364136223846793005;

const INCREMENT: u64 = 1442695040888963407;

/// A linear congruential generator modulo 2^64, whose draws are the upper 31 bits of its state.
#[derive(Clone, Copy)]
struct Draws {
    state: u64,
}

impl Draws {
    fn draw(&mut self) -> u64
        ensures drawn { result ≡ draw self.old.state }
        ensures state { self.new.state ≡ after_draw self.old.state }
    {
        self.state = self.state.wrapping_mul(MULTIPLIER).wrapping_add(INCREMENT);
        self.state >> 33
    }
}

fn key_text(alloc: Global, key: u64) -> Result<String, AllocError>
    ensures { IfOk result (λ text. string_bytes text ≡ (key_of key).key) }
{
    format!(in alloc; "k{key}")
}

fn value_text(alloc: Global, number: u64) -> Result<String, AllocError>
    ensures { IfOk result (λ text. string_bytes text ≡ value_of number) }
{
    format!(in alloc; "v{number}")
}

fn made_item(alloc: Global, key: u64) -> Result<Item, Memory>
    ensures { IfOk result (λ item. item ≡ key_of key) }
{
    let key = key_text(alloc, key)?;
    Ok(Item {
        table: Blob::of(alloc, b"t")?,
        key: Blob::of(alloc, key.as_bytes())?,
    })
}

fn made_value(alloc: Global, number: u64) -> Result<Blob, Memory>
    ensures { IfOk result (λ value. value ≡ value_of number) }
{
    let text = value_text(alloc, number)?;
    Blob::of(alloc, text.as_bytes())
}

/// A transaction of the step with this number, which stands on the next line.
fn made_once(
    alloc: Global,
    number: u64,
    server: u8,
    key: u64,
    what: ChangeKind,
) -> Result<Step, Memory>
    requires { number ≤ 20000 }
    ensures { IfOk result (λ step. step ≡ once_step number server key what) }
{
    Ok(Step::Once {
        server,
        session: SessionId(1_000_000_001 + number as u32),
        change: Change {
            item: made_item(alloc, key)?,
            what,
        },
    })
}

/// The step with this number, of the kind that was drawn.
#[tactic(auto, unfolding(crate::specs::Make::step_by))]
fn made_step(alloc: Global, number: u64, kind: u64, server: u8, key: u64) -> Result<Step, Memory>
    requires { number ≤ 20000 }
    ensures { IfOk result (λ step. step ≡ step_by number kind server key) }
{
    match kind {
        0 | 1 => {
            let value = made_value(alloc, number)?;
            made_once(alloc, number, server, key, ChangeKind::Insert(value))
        }
        2 | 3 => {
            let value = made_value(alloc, number)?;
            made_once(alloc, number, server, key, ChangeKind::Update(value))
        }
        4 => Ok(Step::Settle {
            servers: Sequence::new(alloc),
        }),
        5 => Ok(Step::Work {
            server,
            place: None,
        }),
        6 => Ok(Step::Tick { server, count: 1 }),
        _ => Ok(Step::Operate {
            server,
            what: Operator::Tell,
        }),
    }
}

/// The step with this number, drawn: its kind, then its server, then its key.
#[tactic(auto, unfolding(crate::specs::Make::step_drawn))]
fn drawn_step(alloc: Global, number: u64, draws: &mut Draws) -> Result<Step, Memory>
    requires { number ≤ 20000 }
    ensures step { IfOk result (λ step. step ≡ step_drawn number draws.old.state) }
    ensures state { draws.new.state ≡ after_draw (after_draw (after_draw draws.old.state)) }
{
    let kind = draws.draw() % 8;
    let server = draws.draw() % 3 + 1;
    let key = draws.draw() % 100;
    made_step(alloc, number, kind, server as u8, key)
}

fn made_founding(alloc: Global) -> Result<Step, Memory>
    ensures { IfOk result (λ step. step ≡ founding) }
{
    Ok(Step::Found {
        group: [0xaa; 16],
        mode: Mode::Multi,
        horizon: 10,
        expel: 5,
        majority: 0,
        servers: Sequence::from_vec([1, 2, 3].to_vec(alloc)?),
    })
}

fn numbered(number: u64, step: Step) -> Line
    ensures { result ≡ line_with number step }
{
    Line {
        number,
        step: Some(step),
    }
}

/// Makes a script of a founding, `n` steps that are drawn from `from`, and a drain. Linear in `n`.
#[tactic(auto, unfolding(crate::specs::Make::made))]
pub fn make_script(alloc: Global, n: u32, from: u64) -> Result<Vec<Line>, Memory>
    requires { n ≤ 20000 }
    ensures lines { IfOk result (λ lines. lines.items ≡ made n from) }
    ensures range { IfOk result (λ lines. AllByRecursion IsInRange lines.items) }
{
    let mut lines = Vec::new(alloc);
    let founding = made_founding(alloc)?;
    lines.push(numbered(1, founding))?;
    let mut draws = Draws { state: from };
    for i in 0..n as u64 {
        let step = drawn_step(alloc, i + 1, &mut draws)?;
        lines.push(numbered(i + 2, step))?;
    }
    lines.push(numbered(n as u64 + 2, Step::Drain))?;
    Ok(lines)
}
