// Fields of a label.
use crate::count::CountForm;
use crate::fault::FieldFault;
use crate::field::Field;
use crate::form::{rewrite, same};
use crate::judge::judge;
use crate::key::KeyForm;
use crate::kind::FormKind;
use crate::measure::MeasureForm;
use crate::year::Year;
use std::test::Fail;

// Whether a date is lawful in the year 2000.
fn is_date(field: &[u8]) -> bool {
    judge(
        FormKind::Date,
        Year::FIRST,
        Field {
            bytes: field,
            at: 0,
        },
        &mut [0; 30],
    )
    .is_ok()
}

// The years 1996 and 2000 are leap years, and 1999 is none.
#[test]
fn leap_years(rt: HostRuntime) {
    assert!(rt; is_date(b"000229"));
    assert!(rt; is_date(b"960229"));
    assert!(rt; !is_date(b"990229"));
    assert!(rt; is_date(b"990200"));
}

#[test]
fn check_digits(rt: HostRuntime) -> Result<(), Fail> {
    let mut out = [0; 30];
    let field = Field {
        bytes: b"04841234123457",
        at: 5,
    };
    assert_eq!(rt; rewrite::<KeyForm>(Year::FIRST, field, &mut out)?, 14);
    assert_eq!(rt; out[13], b'7');
    let wrong = Field {
        bytes: b"04841234123458",
        at: 5,
    };
    let refused = rewrite::<KeyForm>(Year::FIRST, wrong, &mut out);
    assert_eq!(rt; refused, Err(FieldFault::CheckDigit { place: 18 }));
    Ok(())
}

// 12.500 is 12.5, and is not 1.25; 048 is 48.
#[test]
fn equal_values(rt: HostRuntime) -> Result<(), Fail> {
    assert!(rt; same::<MeasureForm>(Year::FIRST, b"3012500", b"1000125")?);
    assert!(rt; !same::<MeasureForm>(Year::FIRST, b"3012500", b"2000125")?);
    assert!(rt; same::<CountForm>(Year::FIRST, b"048", b"48")?);
    Ok(())
}
