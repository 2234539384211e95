use crate::complaint::Complaint;
use crate::cut::trimmed;
use crate::error::Failure;
use crate::hall::{Hall, HallCommand, parse_hall};
use crate::line::{BookChoice, Command};
use crate::number::number;
use crate::parse::parse;
use crate::show::show;
use calls::call::Call;
use forms::kind::FormKind;
use std::alloc::{AllocError, Global};
use std::test::Fail;

// The year of a `turn`, if the line is one.
fn year(heap: Global, line: &[u8]) -> Result<Option<u16>, AllocError> {
    match parse(heap, line) {
        Ok(Some(Command::Call(Call::Turn(year)))) => Ok(Some(year)),
        Err(Failure::Memory(lack)) => Err(lack),
        _ => Ok(None),
    }
}

#[test]
fn numbers(rt: HostRuntime) {
    assert_eq!(rt; number(b"007", 65535), Some(7));
    assert_eq!(rt; number(b"65536", 65535), None);
    assert_eq!(rt; number(b"18446744073709551615", u64::MAX), Some(u64::MAX));
    assert_eq!(rt; number(b"18446744073709551616", u64::MAX), None);
}

#[test]
fn turns(rt: HostRuntime) -> Result<(), Fail> {
    assert_eq!(rt; year(rt.alloc(), trimmed(b"turn 2026\r"))?, Some(2026));
    assert_eq!(rt; year(rt.alloc(), b"turn  2026")?, None);
    assert_eq!(rt; year(rt.alloc(), b"turn 1 2")?, None);
    Ok(())
}

#[test]
fn fields(rt: HostRuntime) -> Result<(), Fail> {
    match parse(rt.alloc(), b"field key ^a\\fF b")? {
        Some(
            Command::Field {
                kind: FormKind::Key,
                bytes,
            },
        ) => {
            let mut out = Vec::new(rt.alloc());
            show(&bytes, &mut out)?;
            assert!(rt; out.as_slice() == b"^a\\FF b".as_slice());
            Ok(())
        }
        _ => Err(Fail::new("no field")),
    }
}

#[test]
fn complaints(rt: HostRuntime) -> Result<(), Fail> {
    match parse(rt.alloc(), b"field key \\0g") {
        Err(Failure::Refused(complaint)) => {
            assert!(rt; format!(in rt.alloc(); "{complaint}")?.as_str() == "? bad escape");
            Ok(())
        },
        _ => Err(Fail::new("no complaint")),
    }
}

// The answer to a line for two halls that is a complaint.
fn hall_complaint(heap: Global, line: &[u8]) -> Result<Option<Complaint>, AllocError> {
    match parse_hall(heap, line) {
        Err(Failure::Refused(complaint)) => Ok(Some(complaint)),
        Err(Failure::Memory(lack)) => Err(lack),
        Ok(_) => Ok(None),
    }
}

#[test]
fn halls(rt: HostRuntime) -> Result<(), Fail> {
    match parse_hall(rt.alloc(), b"2 turn 2026")? {
        Some(
            HallCommand::Call {
                hall,
                call: Call::Turn(year),
            },
        ) => {
            assert_eq!(rt; hall, Hall::Second);
            assert_eq!(rt; year, 2026);
        }
        _ => return Err(Fail::new("no call")),
    }
    match parse_hall(rt.alloc(), b"book gs1")? {
        Some(HallCommand::Book(BookChoice::Gs1)) => {}
        _ => return Err(Fail::new("no book")),
    }
    assert_eq!(rt;
        hall_complaint(rt.alloc(), b"1 look \\zz")?,
        Some(Complaint::UnknownCommand)
    );
    assert_eq!(rt;
        hall_complaint(rt.alloc(), b"1 ")?,
        Some(Complaint::UnknownCommand)
    );
    assert_eq!(rt;
        hall_complaint(rt.alloc(), b"1 scan \\zz")?,
        Some(Complaint::BadEscape)
    );
    assert_eq!(rt;
        hall_complaint(rt.alloc(), b"1 wipe 1")?,
        Some(Complaint::BadNumber)
    );
    Ok(())
}
