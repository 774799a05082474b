//! A test of sense data, byte for byte.

use super::codes::{INVALID_OPERATION_CODE, NO_SENSE, no_spare_location, unrecovered_read_error};

#[test]
fn sense_data_are_in_fixed_format(rt: HostRuntime) {
    let none = [0x70, 0, 0, 0, 0, 0, 0, 10, 0, 0, 0, 0, 0, 0, 0, 0, 0, 0];
    let code = [0x70, 0, 5, 0, 0, 0, 0, 10, 0, 0, 0, 0, 0x20, 0, 0, 0, 0, 0];
    let read = [0xf0, 0, 3, 1, 2, 3, 4, 10, 0, 0, 0, 0, 0x11, 0, 0, 0, 0, 0];
    let spare = [0xf0, 0, 3, 0, 0, 0, 0, 10, 0, 0, 0, 0, 0x32, 0, 0, 0, 0, 0];
    assert_eq!(rt; NO_SENSE.to_bytes(), none);
    assert_eq!(rt; INVALID_OPERATION_CODE.to_bytes(), code);
    assert_eq!(rt; unrecovered_read_error(0x0102_0304).to_bytes(), read);
    assert_eq!(rt; no_spare_location(0).to_bytes(), spare);
}
