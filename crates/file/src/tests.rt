// A field that is taken answers its number; of one that is cut short the fault tells where it begins.
use crate::fault::{Cause, Fault, Field};
use crate::reader::Reader;
use sheet::refusal::Refusal;

#[test]
fn a_fault_tells_where_its_field_begins(rt: HostRuntime) {
    let mut reader = Reader::new(&[5, 0x80]);
    match reader.field(Field::Facts, Reader::short) {
        Ok(facts) => assert_eq!(rt; facts, 5),
        Err(_) => assert!(rt; false, "a number is refused"),
    }
    match reader.field(Field::Target, Reader::short) {
        Err(
            Fault {
                cause: Cause::Bytes(Refusal::Cut),
                field: Field::Target,
                place,
            },
        ) => assert_eq!(rt; place, 1),
        _ => assert!(rt; false, "a number that is cut short is no field"),
    }
}
