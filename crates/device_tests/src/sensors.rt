// Names that are looked up in a sensor bank, in a row before it, and in it before a row.

use readings::Row;
use sources::{Before, Sensor, SensorBank, Source, Status};
use values::{Name, Value};

// What a value is, and its number.
fn seen(value: Value) -> (char, i32) {
    match value {
        Value::Missing => ('-', 0),
        Value::Error => ('!', 0),
        Value::Number(number) => ('n', number),
        _ => ('?', 0),
    }
}

fn sensor(name: Name, number: i32, code: u8) -> Sensor {
    Sensor {
        name,
        number,
        status: Status::from(code),
    }
}

#[test]
fn the_lower_place_counts(rt: HostRuntime) -> anyhow::Result<()> {
    let (Some(air), Some(soil)) = (Name::new(b"env/air"), Name::new(b"env/soil")) else {
        anyhow::bail!("a name is too long");
    };
    let mut sensors = [sensor(soil, 7, 3); 16];
    sensors[4] = sensor(air, -5, 0);
    sensors[5] = sensor(air, 6, 0);
    let bank = SensorBank { sensors };
    assert_eq!(rt; seen(bank.look_up(b"env/air")), ('n', -5));
    assert_eq!(rt; seen(bank.look_up(b"env/soil")), ('!', 0));
    assert_eq!(rt; seen(bank.look_up(b"env/light")), ('-', 0));
    Ok(())
}

// What a row before a bank has for a name, and then the bank before the row.
fn in_both_orders(
    names: &[Name],
    cells: &[Value],
    bank: &SensorBank,
    name: &[u8],
) -> ((char, i32), (char, i32)) {
    let row = Row { names, cells };
    let row_first = Before {
        first: row,
        second: *bank,
    };
    let bank_first = Before {
        first: *bank,
        second: row,
    };
    (
        seen(row_first.look_up(name)),
        seen(bank_first.look_up(name)),
    )
}

#[test]
fn a_missing_reading_is_sought_in_the_second(rt: HostRuntime) -> anyhow::Result<()> {
    let (Some(air), Some(soil)) = (Name::new(b"env/air"), Name::new(b"env/soil")) else {
        anyhow::bail!("a name is too long");
    };
    let mut sensors = [sensor(air, 1, 0); 16];
    sensors[1] = sensor(soil, 2, 2);
    let bank = SensorBank { sensors };
    let names = [air, soil];
    let cells = [Value::Missing, Value::Error];
    let air = in_both_orders(&names[..], &cells[..], &bank, b"env/air");
    assert_eq!(rt; air, (('n', 1), ('n', 1)));
    let soil = in_both_orders(&names[..], &cells[..], &bank, b"env/soil");
    assert_eq!(rt; soil, (('!', 0), ('!', 0)));
    Ok(())
}
