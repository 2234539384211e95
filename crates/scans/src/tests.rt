// Scans under the GS1 book.
use crate::element::next_element;
use crate::fault::ScanFault;
use crate::read::count_elements;
use books::gs1::Gs1Book;
use forms::year::Year;
use std::test::Fail;

#[test]
fn counts(rt: HostRuntime) -> Result<(), Fail> {
    let scan = b"]C101048412341234571012345qwert\x1d21asdfghjk";
    assert_eq!(rt; count_elements(&Gs1Book, Year::FIRST, scan)?, 3);
    Ok(())
}

#[test]
fn refuses(rt: HostRuntime) {
    let two = count_elements(&Gs1Book, Year::FIRST, b"]C110A\x1d\x1d21B");
    assert_eq!(rt; two, Err(ScanFault::Separator { place: 7 }));
    let short = count_elements(&Gs1Book, Year::FIRST, b"]C11526093");
    assert_eq!(rt; short, Err(ScanFault::Length { place: 3 }));
}

#[test]
fn reads_one(rt: HostRuntime) -> Result<(), Fail> {
    let mut out = [7; 30];
    let Some(element) = next_element(&Gs1Book, Year::FIRST, b"]C13007\x1d10A", 3, &mut out)? else {
        return Err(Fail::new("nothing is read"));
    };
    assert_eq!(rt; element.next, 8);
    assert_eq!(rt; out[0], b'7');
    assert_eq!(rt; out[1], 7);
    Ok(())
}
