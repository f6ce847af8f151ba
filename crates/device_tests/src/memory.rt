// The memory that is lent to a journal.

use crate::duties::duty;
use combining::Decision;
use enforcement::{Bias, enforce_by_journal};
use policy::Force;
use services::{Journal, UNUSED, has_places};
use trees::Duty;
use values::Value;

// The action and the number of an entry; -1 where it has no number.
fn entry(duty: &Duty) -> (u8, i32) {
    match duty.argument {
        Value::Number(number) => (duty.action, number),
        _ => (duty.action, -1),
    }
}

#[test]
fn sixty_three_places_are_too_few(rt: HostRuntime) -> anyhow::Result<()> {
    let mut memory = [UNUSED; 63];
    let Err(rejection) = has_places(&memory[..]) else {
        anyhow::bail!("63 places were taken");
    };
    let line = format!(in rt.alloc(); "{rejection}")?;
    assert_eq!(rt; line.as_str(), "refused 11 3 0 0");
    assert!(rt; Journal::lay(&mut memory[..]).is_err());
    let results = enforce_by_journal(Bias::Base, Decision::Permit, &[], &mut memory[..]);
    assert!(rt; results.is_err());
    assert!(rt; has_places(&[UNUSED; 64]).is_ok());
    Ok(())
}

#[test]
fn carried_duties_stand_in_front(rt: HostRuntime) -> anyhow::Result<()> {
    let duties = [
        duty(Force::Must, 7, 1),
        duty(Force::May, 8, 2),
        duty(Force::Must, 0, 3),
        duty(Force::Must, 9, 4),
        duty(Force::May, 0, 5),
    ];
    let mut memory = [duty(Force::May, 3, 30); 65];
    let results = enforce_by_journal(Bias::Base, Decision::Deny, &duties, &mut memory[..]);
    let Ok((decision, carried, failed, skipped)) = results else {
        anyhow::bail!("65 places were refused");
    };
    assert!(rt; decision == Decision::Indeterminate);
    assert_eq!(rt; (carried, failed, skipped), (2, 2, 1));
    assert_eq!(rt; entry(&memory[0]), (7, 1));
    assert_eq!(rt; entry(&memory[1]), (0, 3));
    assert_eq!(rt; entry(&memory[2]), (3, 30));
    assert_eq!(rt; entry(&memory[64]), (3, 30));
    Ok(())
}

#[test]
fn the_sixty_fifth_duty_fails(rt: HostRuntime) -> anyhow::Result<()> {
    let duties = [duty(Force::May, 1, 1); 65];
    let mut memory = [UNUSED; 65];
    let results = enforce_by_journal(Bias::DenyBiased, Decision::Permit, &duties, &mut memory[..]);
    let Ok((decision, carried, failed, skipped)) = results else {
        anyhow::bail!("65 places were refused");
    };
    assert!(rt; decision == Decision::Permit);
    assert_eq!(rt; (carried, failed, skipped), (64, 1, 0));
    assert_eq!(rt; entry(&memory[63]), (1, 1));
    assert_eq!(rt; entry(&memory[64]), (0, -1));
    Ok(())
}
