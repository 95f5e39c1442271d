//! Headers as the format writes them, byte by byte. Another program worked out their CRCs.

/// An erase-counter header of the small geometry, with counter 0 and no image.
pub const EC: [u8; 64] = *b"UBI#\x01\0\0\0\
    \0\0\0\0\0\0\0\0\0\0\0\x40\0\0\0\x80\0\0\0\0\
    \0\0\0\0\0\0\0\0\0\0\0\0\0\0\0\0\0\0\0\0\0\0\0\0\0\0\0\0\0\0\0\0\x77\x52\xb3\xc4";

/// The same in the image 0x12345678.
pub const NAMED_EC: [u8; 64] = *b"UBI#\x01\0\0\0\
    \0\0\0\0\0\0\0\0\0\0\0\x40\0\0\0\x80\x12\x34\x56\x78\
    \0\0\0\0\0\0\0\0\0\0\0\0\0\0\0\0\0\0\0\0\0\0\0\0\0\0\0\0\0\0\0\0\x5b\x73\xf9\x13";

/// That of another image, 8.
pub const OTHER_EC: [u8; 64] = *b"UBI#\x01\0\0\0\
    \0\0\0\0\0\0\0\0\0\0\0\x40\0\0\0\x80\0\0\0\x08\
    \0\0\0\0\0\0\0\0\0\0\0\0\0\0\0\0\0\0\0\0\0\0\0\0\0\0\0\0\0\0\0\0\x1b\xb7\x32\x1d";

/// That of the image 0x12345678 once the eraseblock was erased, with counter 1.
pub const ERASED_EC: [u8; 64] = *b"UBI#\x01\0\0\0\
    \0\0\0\0\0\0\0\x01\0\0\0\x40\0\0\0\x80\x12\x34\x56\x78\
    \0\0\0\0\0\0\0\0\0\0\0\0\0\0\0\0\0\0\0\0\0\0\0\0\0\0\0\0\0\0\0\0\xf8\xe5\xd1\x5f";

/// An erase-counter header of version 2, with counter 0 and the image 0x12345678.
pub const VERSION_2: [u8; 64] = *b"UBI#\x02\0\0\0\
    \0\0\0\0\0\0\0\0\0\0\0\x40\0\0\0\x80\x12\x34\x56\x78\
    \0\0\0\0\0\0\0\0\0\0\0\0\0\0\0\0\0\0\0\0\0\0\0\0\0\0\0\0\0\0\0\0\x7d\xcc\xcd\x6a";

/// The header of logical eraseblock 0 of the dynamic volume 0.
pub const LEB_0: [u8; 64] = *b"UBI!\x01\x01\0\0\
    \0\0\0\0\0\0\0\0\0\0\0\0\0\0\0\0\0\0\0\0\0\0\0\0\0\0\0\0\0\0\0\0\
    \0\0\0\0\0\0\0\0\0\0\0\0\0\0\0\0\0\0\0\0\x73\xb1\xab\x57";

/// That of logical eraseblock 1.
pub const LEB_1: [u8; 64] = *b"UBI!\x01\x01\0\0\
    \0\0\0\0\0\0\0\x01\0\0\0\0\0\0\0\0\0\0\0\0\0\0\0\0\0\0\0\0\0\0\0\0\
    \0\0\0\0\0\0\0\0\0\0\0\0\0\0\0\0\0\0\0\0\xd0\x27\x83\x1b";

/// That of logical eraseblock 2.
pub const LEB_2: [u8; 64] = *b"UBI!\x01\x01\0\0\
    \0\0\0\0\0\0\0\x02\0\0\0\0\0\0\0\0\0\0\0\0\0\0\0\0\0\0\0\0\0\0\0\0\
    \0\0\0\0\0\0\0\0\0\0\0\0\0\0\0\0\0\0\0\0\xef\xec\xfd\x8e";

/// The header of logical eraseblock 1 of volume 0 with copy flag 2.
pub const COPY_FLAG_2: [u8; 64] = *b"UBI!\x01\x01\x02\0\
    \0\0\0\0\0\0\0\x01\0\0\0\0\0\0\0\0\0\0\0\0\0\0\0\0\0\0\
    \0\0\0\0\0\0\0\0\0\0\0\0\0\0\0\0\0\0\0\0\0\0\0\0\0\0\xd3\x6c\xd0\x77";

/// That of a copy of it that is 64 bytes 0x61, with sequence number 1.
pub const COPY_OF_64: [u8; 64] = *b"UBI!\x01\x01\x01\0\
    \0\0\0\0\0\0\0\x01\0\0\0\0\0\0\0\x40\0\0\0\0\0\0\0\0\x76\x4B\x9A\xAA\
    \0\0\0\0\0\0\0\0\0\0\0\x01\0\0\0\0\0\0\0\0\0\0\0\0\xD0\x9F\xD3\x96";
