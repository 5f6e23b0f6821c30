// Where there is memory, each call that asks for it succeeds.
use crate::columns::{FACTS, OwnedColumns, RULES, WORK};
use crate::input::read_up_to;
use measure::total::Total;

#[test]
fn columns_are_made(rt: HostRuntime) {
    let made: Result<OwnedColumns<Total>, _> = OwnedColumns::new(rt.alloc());
    match made {
        Ok(columns) => {
            assert_eq!(rt; columns.line.len(), FACTS);
            assert_eq!(rt; columns.queue.len(), RULES);
            assert_eq!(rt; columns.work.len(), WORK);
        }
        Err(_) => assert!(rt; false, "no memory for the columns"),
    }
}

#[test]
fn an_input_is_read_one_byte_beyond_its_limit(rt: HostRuntime) {
    let input: &[u8] = b"12345";
    match read_up_to(rt.alloc(), input, 3) {
        Ok(bytes) => assert_eq!(rt; bytes.as_slice(), b"1234".as_slice()),
        Err(_) => assert!(rt; false, "no memory for the input"),
    }
}
