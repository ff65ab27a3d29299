// Records of a file one by one, with the refusal where one cannot be read by itself.
use file::read_one;
use record::House;
use refusal::Refusal;
use std::test::Fail;

const UNKNOWN: &[u8] =
    b"77                                                                              \n";

// what the first record of the bytes is refused with, where it has number 5
const REFUSED: [(&[u8], &str); 7] = [
    (b"", "1, file, record 5: no whole record"),
    (
        b"77                                                                              ",
        "1, file, record 5: no whole record",
    ),
    (
        b"77                                                                              \r",
        "1, file, record 5: no whole record",
    ),
    (
        b"77                                                                             \n\n",
        "1, file, record 5: no whole record",
    ),
    (
        b"77                                                                             \x7f\n",
        "1, file, record 5: no whole record",
    ),
    (
        b"7x                                                                              \n",
        "2, file, record 5: code not two digits",
    ),
    (
        b"29            x                                                                 \n",
        "4, file, record 5: field breaks its layout",
    ),
];

#[test]
fn refusals(rt: HostRuntime) -> Result<(), Fail> {
    for (bytes, words) in REFUSED {
        match read_one(bytes, 5, &House) {
            Ok(_) => return Err(Fail::new("read")),
            Err(fault) => {
                let told = Refusal::from(fault).to_string(rt.alloc())?;
                assert_eq!(rt; told.as_str(), words);
            }
        }
    }
    Ok(())
}

// Both line ends, and what stands behind the first line is not looked at.
const WIDTHS: [(&[u8], usize); 3] = [
    (UNKNOWN, 81),
    (
        b"77                                                                              \r\n",
        82,
    ),
    (
        b"77                                                                             \xff\nxx",
        81,
    ),
];

#[test]
fn widths(rt: HostRuntime) -> Result<(), Fail> {
    for (bytes, width) in WIDTHS {
        match read_one(bytes, 1, &House) {
            Ok(one) => assert_eq!(rt; one.width, width),
            Err(_) => return Err(Fail::new("refused")),
        }
    }
    Ok(())
}
