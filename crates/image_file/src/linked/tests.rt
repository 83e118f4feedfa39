//! Files of linked images, by hand.

use super::*;
use std::test::*;

/// The class `A`, the words 1 and 0xFFFF_FFFE, a file of two bytes and an empty one.
const FILE: &[u8] =
    b"JOPI\0\x01\0\x01A\0\0\0\x02\0\0\0\x02\0\0\0\x01\xFF\xFF\xFF\xFE\0\0\0\x02hi\0\0\0\0";

#[test]
fn file_of_an_image(rt: HostRuntime) -> Result<(), Fail> {
    let image = read_linked(rt.alloc(), FILE)
        .ok()
        .ok_or("the bytes are the file of an image")?;
    assert_eq!(rt; image.main_name(), b"A".as_slice());
    assert_eq!(rt; image.words(), [1, 0xFFFF_FFFE].as_slice());
    let files = image.files();
    assert_eq!(rt; files.len(), 2);
    assert_eq!(rt; files[0].as_slice(), b"hi".as_slice());
    assert_eq!(rt; files[1].as_slice(), b"".as_slice());
    let (main_name, words, files) = image.into_parts();
    let bytes = write_linked(rt.alloc(), &main_name, &words, &files)
        .ok()
        .ok_or("there is memory")?;
    assert_eq!(rt; bytes.as_slice(), FILE);
    Ok(())
}

#[test]
fn bytes_of_no_image(rt: HostRuntime) {
    let cases: [&[u8]; 9] = [
        b"",
        &FILE[..FILE.len() - 1],
        // A byte behind the last file, another mark and another version.
        b"JOPI\0\x01\0\0\0\0\0\0\0\0\0\0\0",
        b"JOPB\0\x01\0\0\0\0\0\0\0\0\0\0",
        b"JOPI\0\x02\0\0\0\0\0\0\0\0\0\0",
        // More bytes of a name, more words, more files and a longer file than there are bytes.
        b"JOPI\0\x01\xFF\xFF\0\0\0\0\0\0\0\0",
        b"JOPI\0\x01\0\0\xFF\xFF\xFF\xFF\0\0\0\0",
        b"JOPI\0\x01\0\0\0\0\0\0\xFF\xFF\xFF\xFF",
        b"JOPI\0\x01\0\0\0\0\0\0\0\0\0\x01\xFF\xFF\xFF\xFF",
    ];
    for bytes in cases {
        assert!(rt; matches!(read_linked(rt.alloc(), bytes), Err(LinkedFault::Bad)));
    }
    let empty = b"JOPI\0\x01\0\0\0\0\0\0\0\0\0\0";
    assert!(rt; read_linked(rt.alloc(), empty).is_ok());
}
