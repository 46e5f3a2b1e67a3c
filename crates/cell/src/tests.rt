//! Elements written out word by word.

use crate::address::Address;
use crate::cell::Cell;
use crate::element::Element;
use crate::frame::Frame;
use crate::name::Name;
use crate::value::Value;
use crate::wind::Wind;
use crate::wind_number::WindNumber;

#[test]
fn frames_are_their_tag_and_what_they_hold(rt: HostRuntime) {
    let name = Name(3);
    let value = Value::Number(-1);
    assert_eq!(rt;
        Frame::Saved(Value::Empty).to_cell(),
        Cell::filled(&[1, 0, 0])
    );
    assert_eq!(rt; Frame::Back(Address(9)).to_cell(), Cell::filled(&[2, 9]));
    assert_eq!(rt; Frame::Mark(name).to_cell(), Cell::filled(&[3, 3]));
    assert_eq!(rt;
        Frame::In(Address(10), Address(11), Address(12)).to_cell(),
        Cell::filled(&[4, 10, 11, 12])
    );
    assert_eq!(rt; Frame::Out.to_cell(), Cell::filled(&[5]));
    assert_eq!(rt;
        Frame::Hold(Value::Procedure(Address(7))).to_cell(),
        Cell::filled(&[6, 2, 7])
    );
    assert_eq!(rt;
        Frame::Toss(name, value).to_cell(),
        Cell::filled(&[7, 3, 1, u32::MAX])
    );
    assert_eq!(rt;
        Frame::Enter(name, Value::Continuation(Name(4))).to_cell(),
        Cell::filled(&[8, 3, 3, 4])
    );
}

#[test]
fn winds_are_their_number_and_two_addresses(rt: HostRuntime) {
    let wind = Wind {
        number: WindNumber(2),
        before: Address(10),
        after: Address(20),
    };
    assert_eq!(rt; wind.to_cell(), Cell::filled(&[2, 10, 20]));
}
