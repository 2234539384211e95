use crate::book::Book;
use crate::fault::BookFault;
use crate::gs1::Gs1Book;
use crate::hall::HallBook;
use std::test::Fail;

// ident 91, text of 1 to 30 bytes
const INTERNAL: u32 = 134963696;

#[test]
fn gs1_finds(rt: HostRuntime) -> Result<(), Fail> {
    let Some(trade) = Gs1Book.find(b"0109501101530003") else {
        return Err(Fail::new("01 is not found"));
    };
    assert_eq!(rt; trade.longest, 14);
    assert!(rt; Gs1Book.find(b"700").is_none());
    assert_eq!(rt; Gs1Book.count(), 69);
    Ok(())
}

#[test]
fn hall_loads(rt: HostRuntime) -> Result<(), Fail> {
    let mut book = HallBook::empty();
    assert_eq!(rt; book.count(), 0);
    book.load(&[INTERNAL])?;
    let Some(found) = book.find(b"91A") else {
        return Err(Fail::new("91 is not found"));
    };
    assert_eq!(rt; found.longest, 30);
    assert!(rt; book.find(b"92A").is_none());
    Ok(())
}

#[test]
fn hall_refuses(rt: HostRuntime) {
    let mut book = HallBook::empty();
    assert_eq!(rt;
        book.load(&[INTERNAL, 0]),
        Err(BookFault::Unlawful { place: 1 })
    );
    assert_eq!(rt;
        book.load(&[INTERNAL, INTERNAL]),
        Err(BookFault::Overlap { place: 1 })
    );
    assert_eq!(rt; book.count(), 0);
}
