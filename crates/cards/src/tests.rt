// Cards under the GS1 book.
use crate::card::Card;
use crate::fault::{CardFault, PrintFault};
use books::gs1::Gs1Book;
use forms::fault::Fault;
use scans::fault::ScanFault;
use std::test::Fail;
use symbols::fault::WriterFault;

// A trade item, its lot and its serial number.
const LABEL: &[u8] = b"]C101048412341234571012345qwert\x1d21asdfghjk";

#[test]
fn scans_twice(rt: HostRuntime) -> Result<(), Fail> {
    let mut card = Card::make();
    assert_eq!(rt; card.scan(&Gs1Book, LABEL)?, 3);
    assert_eq!(rt; card.count(), 3);
    assert_eq!(rt; card.scan(&Gs1Book, LABEL)?, 0);
    assert_eq!(rt; card.count(), 3);
    Ok(())
}

#[test]
fn strikes_and_puts_again(rt: HostRuntime) -> Result<(), Fail> {
    let mut card = Card::make();
    assert_eq!(rt; card.scan(&Gs1Book, b"]C110A")?, 1);
    let refused = card.scan(&Gs1Book, b"]C11500010110B");
    assert_eq!(rt; refused, Err(ScanFault::Differs { place: 11 }));
    card.strike(b"10")?;
    assert_eq!(rt; card.scan(&Gs1Book, b"]C110B")?, 1);
    assert_eq!(rt; card.count(), 1);
    Ok(())
}

// 30 September 2026 lies outside the span of 2076.
#[test]
fn turns(rt: HostRuntime) -> Result<(), Fail> {
    let mut card = Card::make();
    assert_eq!(rt; card.scan(&Gs1Book, b"]C115260930")?, 1);
    let refused = card.turn(2076);
    assert_eq!(rt; refused, Err(CardFault::Outside { element: 0 }));
    assert_eq!(rt; CardFault::Outside { element: 0 }.number(), 14);
    card.turn(2075)?;
    assert_eq!(rt; card.year().number(), 2075);
    Ok(())
}

#[test]
fn takes_a_symbol(rt: HostRuntime) -> Result<(), Fail> {
    let mut card = Card::make();
    assert_eq!(rt; card.take(&Gs1Book, &[105, 102, 20, 15, 86, 106])?, 1);
    assert_eq!(rt; card.count(), 1);
    Ok(())
}

// A lot, a weight of 1.25 and the last day of September: the predefined idents come first, and each value has one writing.
const WORKED: &[u8] = b"]C110AB\x1d3103001250\x1d15260900";

// An empty card has the empty string and no symbol. The worked scan's string has 22 bytes, and fills one symbol.
#[test]
fn strings_and_symbols(rt: HostRuntime) -> Result<(), Fail> {
    let mut card = Card::make();
    let mut short = [7; 21];
    assert_eq!(rt; card.canonical(&mut short)?, 0);
    assert_eq!(rt; card.symbols(), 0);
    assert_eq!(rt;
        card.print(0, &mut short),
        Err(PrintFault::NoSymbol { count: 0 })
    );
    assert_eq!(rt; short, [7; 21]);

    card.turn(2026)?;
    assert_eq!(rt; card.scan(&Gs1Book, WORKED)?, 3);
    assert_eq!(rt; card.canonical(&mut short), Err(WriterFault { needed: 22 }));
    assert_eq!(rt; short, [7; 21]);
    let mut out = [7; 23];
    assert_eq!(rt; card.canonical(&mut out)?, 22);
    assert!(rt; &out == b"15260930310200012510AB\x07");

    assert_eq!(rt; card.symbols(), 1);
    let mut symbol = [7; 18];
    assert_eq!(rt; card.print(0, &mut symbol)?, 17);
    assert_eq!(rt;
        symbol,
        [
            105, 102, 15, 26, 9, 30, 31, 2, 0, 1, 25, 10, 100, 33, 34, 85, 106, 7,
        ]
    );
    assert_eq!(rt;
        card.print(1, &mut symbol),
        Err(PrintFault::NoSymbol { count: 1 })
    );
    Ok(())
}
