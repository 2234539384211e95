// Symbols worked by hand.
use crate::fault::{AddFault, SymbolFault};
use crate::reader::decode;
use crate::writer::{add, begin, seal};
use forms::fault::Fault;
use std::test::Fail;

// One element, of digits alone.
#[test]
fn writes_pairs(rt: HostRuntime) -> Result<(), Fail> {
    let mut buf = [0; 6];
    let empty = begin(&mut buf)?;
    let Ok(symbol) = add(empty, &mut buf, b"2015") else {
        return Err(Fail::new("refused"));
    };
    let Ok(n) = seal(symbol, &mut buf) else {
        return Err(Fail::new("refused"));
    };
    assert_eq!(rt; n, 6);
    assert_eq!(rt; buf, [105, 102, 20, 15, 86, 106]);
    Ok(())
}

// Two elements, of which the first has a predefined length and the second goes to set B.
#[test]
fn writes_two(rt: HostRuntime) -> Result<(), Fail> {
    let mut buf = [0; 12];
    let empty = begin(&mut buf)?;
    let Ok(one) = add(empty, &mut buf, b"15260930") else {
        return Err(Fail::new("refused"));
    };
    let Ok(two) = add(one, &mut buf, b"10AB") else {
        return Err(Fail::new("refused"));
    };
    let Ok(n) = seal(two, &mut buf) else {
        return Err(Fail::new("refused"));
    };
    assert_eq!(rt; n, 12);
    assert_eq!(rt; buf, [105, 102, 15, 26, 9, 30, 10, 100, 33, 34, 80, 106]);
    Ok(())
}

// From set B, with a separator and a change of set.
#[test]
fn reads_from_b(rt: HostRuntime) -> Result<(), Fail> {
    let values = [104, 102, 17, 16, 33, 102, 99, 20, 15, 33, 106];
    let mut out = [7; 48];
    let n = decode(&values, &mut out)?;
    assert_eq!(rt; n, 8);
    assert_eq!(rt; out[3], 29);
    assert_eq!(rt; out[8], 7);
    Ok(())
}

#[test]
fn refuses(rt: HostRuntime) -> Result<(), Fail> {
    let mut out = [0; 48];
    assert_eq!(rt;
        decode(&[105, 102, 20, 15, 85, 106], &mut out),
        Err(SymbolFault::CheckValue { place: 4 })
    );
    let mut buf = [0; 5];
    let empty = begin(&mut buf)?;
    match add(empty, &mut buf, b"201") {
        Err(back) => {
            let (_, fault) = back;
            assert_eq!(rt; fault.number(), 4);
            Ok(())
        }
        Ok(_) => Err(Fail::new("added")),
    }
}
