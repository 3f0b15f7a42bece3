// An event that is done.
ghost use Rattle.std.specs.Prelude.{◌≤◌, ◌≡◌};
ghost use Rattle.board.specs.Promises.{Stepped};
ghost use Rattle.rules.specs.Laws.Refusals.{Ordinary};
ghost use Rattle.rules.specs.Refusals.{refusal};
ghost use Rattle.rules.specs.Size.{size_after};
ghost use Rattle.rules.specs.Interrupt.{request_held};
ghost use Rattle.rules.specs.Step.{reading};
ghost use Rattle.rules.specs.Record.{state_of};

use crate::Reply;
use crate::carry::carry;
use latches::{request_after, request_held, size_after};
use moves::Played;
use plans::plan_of;
use record::depth;
use registers::register_at;
use rules::{Board, Done, Event};

// 01: "register value (0 unless a read)"
#[tactic(auto, unfolding(rules::specs::Step::reading))]
pub(crate) fn register(b: Board, e: Event) -> u32
    requires { Ordinary e → b.size.fitted ≤ 15 }
    ensures { result ≡ reading b e }
{
    match e {
        Event::Read { offset } => register_at(b, offset),
        _ => 0,
    }
}

// The board after a play, all but the interrupt's edge.
pub(crate) fn board_before(b: Board, p: Played, e: Event) -> Board
    ensures { result ≡ record { core = p.core; size = size_after b.size e; request = request_held b.request e; ring = p.ring } }
{
    Board {
        core: p.core,
        size: size_after(b.size, e),
        request: request_held(b.request, e),
        ring: p.ring,
    }
}

// An event that is not refused.
pub(crate) fn done(b: Board, memory: &mut [u32], e: Event) -> Reply
    requires { refusal (state_of b memory.old) e ≡ 0 }
    ensures { Stepped b memory.old e result memory.new }
{
    let value = register(b, e);
    let p = carry(plan_of(b.core, e), b.size, b.ring, depth(b), memory);
    let after = board_before(b, p, e);
    Reply {
        answer: Ok(Done {
            register: value,
            moved: p.moved,
            fate: p.fate,
        }),
        board: Board {
            request: request_after(e, b, after),
            ..after
        },
    }
}
