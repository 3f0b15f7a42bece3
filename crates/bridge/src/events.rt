// The event that a row of six numbers says.
ghost use Rattle.std.specs.Prelude.{◌≡◌};
ghost use Rattle.kinds.specs.Numbers.{kind_number};
ghost use Rattle.file_rules.specs.Row.{field, event_of_row};
ghost use Rattle.bridge.specs.Misfits.{EventRead};

use kinds::{Kind, UnknownKind};
use rules::{Event, Settings};

// Offset and value of an access stand where a power-up has its first two settings: the kind says which they are.
fn event_of(kind: Kind, row: &[u32; 6]) -> Event
    requires { kind_number kind ≡ field row.now 0 }
    ensures { result ≡ event_of_row row.now }
{
    let [_, first, second, filter, kit, firmware] = *row;
    match kind {
        Kind::PowerUp => Event::PowerUp(Settings {
            fitted: first,
            range: second,
            filter,
            kit,
            firmware,
        }),
        Kind::Write => Event::Write {
            offset: first,
            value: second,
        },
        Kind::Read => Event::Read { offset: first },
        Kind::Signal(signal) => Event::Signal(signal),
    }
}

pub(crate) fn row_event(row: &[u32; 6]) -> Result<Event, UnknownKind>
    ensures { EventRead row.now result }
{
    let number = row[0];
    let kind = Kind::try_from(number)?;
    Ok(event_of(kind, row))
}
