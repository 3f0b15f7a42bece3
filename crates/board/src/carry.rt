// What a plan comes to: the values move, or one is stored, or all are dropped.
ghost use Rattle.std.specs.Prelude.{◌≤◌, ◌≡◌};
ghost use Rattle.rules.specs.Record.{active_size};
ghost use Rattle.rules.specs.Flags.{is_full};
ghost use Rattle.moves.specs.Ready.{Ready};
ghost use Rattle.channels.specs.Serving.{Sober};
ghost use Rattle.moves.specs.Does.{Does, ring_values};
ghost use Rattle.moves.specs.Promises.{joined};
ghost use Rattle.plans.specs.Parts.{carried, MovesOrStores};
ghost use Rattle.rules.specs.Clocks.{fate_number};
ghost use Rattle.board.specs.Parts.{lost_by};
ghost use Rattle.rules.specs.declared.Fate.TheVariants.{NoLoad as none};

use channels::serve;
use moves::{Frame, Played, deal, load};
use plans::{Act, Plan};
use rules::{Core, Fate, Lost, Outputs, Ring, Size};
use status::active_size;

// 01: "FRAME OVERFLOW (D17) is set and the value lost; else if full, BUFFER OVERFLOW (D16)"
pub(crate) fn lost_by(fate: Fate, c: Core) -> Core
    ensures { result ≡ lost_by (fate_number fate) c }
{
    Core {
        lost: Lost {
            full: c.lost.full | (fate == Fate::LostToFull),
            closed: c.lost.closed | (fate == Fate::LostToClosed),
        },
        ..c
    }
}

// The core after values were dealt.
pub(crate) fn clocked(c: Core, cursor: u32, levels: [u16; 20], x: Frame) -> Core
    ensures { result ≡ joined c cursor x levels }
{
    Core {
        burst: x.burst,
        load: x.load,
        outputs: Outputs {
            cursor,
            levels,
            ..c.outputs
        },
        ..c
    }
}

// Nothing moved and nothing was loaded.
fn still(core: Core, ring: Ring) -> Played
    ensures { result ≡ record { core = core; ring = ring; moved = 0; fate = none } }
{
    Played {
        core,
        ring,
        moved: 0,
        fate: Fate::NoLoad,
    }
}

// A clock and a load stand here, and once more in the loop of a listing (`at_once` of `listing`): one function above `deal`, called from both,
// was not worked into either (docs/PERFORMANCE.md, item 7).
pub(crate) fn carry(p: Plan, size: Size, ring: Ring, d: u32, memory: &mut [u32]) -> Played
    requires { MovesOrStores p.act → Ready d ring memory.old × Sober p.core × (size.fitted ≤ 15) × (active_size size ≤ d) }
    ensures { Does d (carried p.act p.core (ring_values d ring memory.old) (is_full size ring.count)) ring memory.old result memory.new }
{
    let core = p.core;
    match p.act {
        Act::Nothing => still(core, ring),
        Act::Empties => still(core, Ring::default()),
        Act::Clocks => {
            let s = serve(core, ring.count);
            let before = Frame {
                ring,
                burst: core.burst,
                load: core.load,
            };
            let mut levels = core.outputs.levels;
            let x = deal(
                s.mask,
                before,
                core.control.binary,
                s.again,
                d,
                &mut levels,
                memory,
            );
            Played {
                moved: s.moved,
                ..still(clocked(core, s.cursor, levels, x), x.ring)
            }
        }
        Act::Loads(v) => {
            let s = load(core, active_size(size), ring, d, v, memory);
            Played {
                fate: s.fate,
                ..still(lost_by(s.fate, core), s.ring)
            }
        }
    }
}
