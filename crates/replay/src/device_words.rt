// The device of a session, which is kept as 113 words, for the calls that take the device itself.
use device::Mosfet1;

pub fn device_of(w: &[f64; 113]) -> Mosfet1 {
    from_record::device_from(record_words::record_of(w))
}

pub fn words_of(d: Mosfet1) -> [f64; 113] {
    record_words::words_of(record::device_record(d))
}
