//! Numeric values, by what their operations print or how they are refused.

use cv_calc::{Unit, unit_name};
use cv_om::{Numeric, OmErr};
use std::alloc::Global;
use std::test::Fail;

/// What is printed of an answer, or how it is refused.
fn printed(alloc: Global, answer: Result<Numeric, OmErr>) -> Result<Vec<u8>, Fail> {
    let mut out = Vec::new(alloc);
    match answer {
        Ok(value) => value.print(alloc, &mut out)?,
        Err(error) => write_refusal(&mut out, error)?,
    }
    Ok(out)
}

fn write_refusal(out: &mut Vec<u8>, error: OmErr) -> Result<(), Fail> {
    match error {
        OmErr::Syntax => out.extend_from_slice(b"Syntax")?,
        OmErr::BadType => out.extend_from_slice(b"BadType")?,
        OmErr::RangeError => out.extend_from_slice(b"RangeError")?,
        OmErr::Range => out.extend_from_slice(b"Range")?,
        OmErr::Memory => out.extend_from_slice(b"Memory")?,
    }
    Ok(())
}

#[derive(Clone, Copy)]
enum Operation {
    Add,
    Sub,
    Mul,
    Div,
    Min,
    Max,
}

fn operated(
    alloc: Global,
    first: &str,
    operation: Operation,
    second: &str,
) -> Result<Numeric, OmErr> {
    let a = Numeric::parse(alloc, first)?;
    let b = Numeric::parse(alloc, second)?;
    match operation {
        Operation::Add => a.add(alloc, &b),
        Operation::Sub => a.sub(alloc, &b),
        Operation::Mul => a.mul(alloc, &b),
        Operation::Div => a.div(alloc, &b),
        Operation::Min => a.min(alloc, &b),
        Operation::Max => a.max(alloc, &b),
    }
}

static OPERATED: [(&str, Operation, &str, &[u8]); 17] = [
    ("1px", Operation::Add, "1in", b"calc(1px + 1in)"),
    ("1px", Operation::Mul, "1px", b"calc(1px * 1px)"),
    ("1px", Operation::Add, "1s", b"BadType"),
    ("9223372036854775807px", Operation::Add, "1px", b"Range"),
    ("1px", Operation::Div, "0", b"RangeError"),
    ("6px", Operation::Div, "2", b"3px"),
    ("1px", Operation::Sub, "1px", b"0px"),
    ("3px", Operation::Min, "2px", b"2px"),
    ("3px", Operation::Max, "2px", b"3px"),
    ("1px", Operation::Add, "5%", b"calc(1px + 5%)"),
    ("1px", Operation::Add, "1", b"BadType"),
    (
        "calc(1px + 2em)",
        Operation::Add,
        "3px",
        b"calc(1px + 2em + 3px)",
    ),
    ("9e18px", Operation::Add, "9e18px", b"Range"),
    ("2px", Operation::Mul, "3px", b"calc(2px * 3px)"),
    ("calc(2 * 3)", Operation::Mul, "4px", b"24px"),
    ("1px", Operation::Div, "3", b"calc(1px / 3)"),
    ("red", Operation::Add, "1e30px", b"Syntax"),
];

#[test]
fn operations_print(rt: HostRuntime) -> Result<(), Fail> {
    for (first, operation, second, text) in &OPERATED {
        let answer = operated(rt.alloc(), first, *operation, second);
        assert_eq!(rt;
            printed(rt.alloc(), answer)?.as_slice(),
            *text,
            "of {first} and {second}"
        );
    }
    Ok(())
}

fn turned(alloc: Global, text: &str, inverted: bool) -> Result<Numeric, OmErr> {
    let value = Numeric::parse(alloc, text)?;
    if inverted {
        value.invert(alloc)
    } else {
        value.negate(alloc)
    }
}

static TURNED: [(&str, bool, &[u8]); 4] = [
    ("1px", false, b"-1px"),
    ("2", true, b"0.5"),
    ("0", true, b"RangeError"),
    ("2px", true, b"calc(1 / 2px)"),
];

#[test]
fn negatives_and_inverses_print(rt: HostRuntime) -> Result<(), Fail> {
    for (text, inverted, printed_text) in &TURNED {
        let answer = turned(rt.alloc(), text, *inverted);
        assert_eq!(rt;
            printed(rt.alloc(), answer)?.as_slice(),
            *printed_text,
            "of {text}"
        );
    }
    Ok(())
}

/// The items of a sum value: `2em;1px;`, or how it is refused.
fn items(alloc: Global, text: &str) -> Result<Vec<u8>, Fail> {
    let mut out = Vec::new(alloc);
    let row = match Numeric::parse(alloc, text) {
        Ok(value) => value.sum_value(alloc),
        Err(error) => Err(error),
    };
    match row {
        Err(error) => write_refusal(&mut out, error)?,
        Ok(row) => {
            for item in row.as_slice() {
                item.value.write(alloc, &mut out)?;
                for (unit, power) in item.units.as_slice() {
                    out.extend_from_slice(unit_name(*unit).as_bytes())?;
                    if *power != 1 {
                        out.extend_from_slice(b"^")?;
                    }
                }
                out.extend_from_slice(b";")?;
            }
        }
    }
    Ok(out)
}

static ITEMS: [(&str, &[u8]); 5] = [
    ("calc(1px + 1in)", b"97px;"),
    ("calc(1em + 1px + 1em)", b"2em;1px;"),
    ("calc(2px * 3px)", b"6px^;"),
    ("calc(1 / (1px - 1px))", b"RangeError"),
    ("calc(1 / (1px + 1em))", b"BadType"),
];

#[test]
fn sum_values_have_items(rt: HostRuntime) -> Result<(), Fail> {
    for (text, row) in &ITEMS {
        assert_eq!(rt; items(rt.alloc(), text)?.as_slice(), *row, "of {text}");
    }
    Ok(())
}

#[test]
fn sums_and_products_are_read_back(rt: HostRuntime) -> Result<(), Fail> {
    let alloc = rt.alloc();
    let length = Numeric::parse(alloc, "1px")?;
    let sum = length.add(alloc, &Numeric::parse(alloc, "1in")?)?;
    let pixels = printed(alloc, sum.to(alloc, Unit::Px))?;
    assert_eq!(rt; pixels.as_slice(), b"97px".as_slice());
    let square = length.mul(alloc, &length)?;
    assert!(rt; square.equals(&Numeric::parse(alloc, "calc(1px * 1px)")?));
    Ok(())
}

#[test]
fn values_convert(rt: HostRuntime) -> Result<(), Fail> {
    let mixed = Numeric::parse(rt.alloc(), "calc(1px + 1in)")?;
    let sum = mixed.to_sum(rt.alloc(), &[Unit::Inch]);
    assert_eq!(rt;
        printed(rt.alloc(), sum)?.as_slice(),
        b"calc((97in / 96))".as_slice()
    );
    let own = mixed.to_sum(rt.alloc(), &[]);
    assert_eq!(rt;
        printed(rt.alloc(), own)?.as_slice(),
        b"calc(97px)".as_slice()
    );
    let em = Numeric::parse(rt.alloc(), "1em")?;
    assert_eq!(rt;
        printed(rt.alloc(), em.to(rt.alloc(), Unit::Px))?.as_slice(),
        b"BadType".as_slice()
    );
    let again = Numeric::parse(rt.alloc(), "1.0EM")?;
    assert!(rt; em.equals(&again));
    assert!(rt; !em.equals(&mixed));
    Ok(())
}
