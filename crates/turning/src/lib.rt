// The turning of octets: a stored octet is the complement of the sent one with its bits in reverse order.
#![tactic(auto)]

ghost use Rattle.std.specs.Prelude.{◌≡◌};
ghost use Rattle.turning.specs.Turned.{reversed, Turning};

const TURNED: [u8; 256] = [
    255, 127, 191, 63, 223, 95, 159, 31, 239, 111, 175, 47, 207, 79, 143, 15, 247, 119, 183, 55,
    215, 87, 151, 23, 231, 103, 167, 39, 199, 71, 135, 7, 251, 123, 187, 59, 219, 91, 155, 27, 235,
    107, 171, 43, 203, 75, 139, 11, 243, 115, 179, 51, 211, 83, 147, 19, 227, 99, 163, 35, 195, 67,
    131, 3, 253, 125, 189, 61, 221, 93, 157, 29, 237, 109, 173, 45, 205, 77, 141, 13, 245, 117,
    181, 53, 213, 85, 149, 21, 229, 101, 165, 37, 197, 69, 133, 5, 249, 121, 185, 57, 217, 89, 153,
    25, 233, 105, 169, 41, 201, 73, 137, 9, 241, 113, 177, 49, 209, 81, 145, 17, 225, 97, 161, 33,
    193, 65, 129, 1, 254, 126, 190, 62, 222, 94, 158, 30, 238, 110, 174, 46, 206, 78, 142, 14, 246,
    118, 182, 54, 214, 86, 150, 22, 230, 102, 166, 38, 198, 70, 134, 6, 250, 122, 186, 58, 218, 90,
    154, 26, 234, 106, 170, 42, 202, 74, 138, 10, 242, 114, 178, 50, 210, 82, 146, 18, 226, 98,
    162, 34, 194, 66, 130, 2, 252, 124, 188, 60, 220, 92, 156, 28, 236, 108, 172, 44, 204, 76, 140,
    12, 244, 116, 180, 52, 212, 84, 148, 20, 228, 100, 164, 36, 196, 68, 132, 4, 248, 120, 184, 56,
    216, 88, 152, 24, 232, 104, 168, 40, 200, 72, 136, 8, 240, 112, 176, 48, 208, 80, 144, 16, 224,
    96, 160, 32, 192, 64, 128, 0,
];

// The octet with its bits in reverse order: its halves change places, then the pairs in each half, then the bits of each pair.
pub fn reverse(x: u8) -> u8
    ensures { result ≡ reversed 8 x }
{
    let halves = x / 16 + x % 16 * 16;
    let pairs = (halves / 4 & 51) + (halves & 51) * 4;
    (pairs / 2 & 85) + (pairs & 85) * 2
}

// The turning table: entry x is the octet as it is stored of the one sent, and back.
pub fn turning() -> [u8; 256]
    ensures { Turning result }
{
    TURNED
}
