// The square root of an f64, correctly rounded: a guess, of which nothing is claimed, and from it a root of whole numbers that exact comparisons set right.
#![tactic(auto)]

ghost use Rattle.std.specs.Prelude.{◌≡◌, ◌+◌, ◌*◌, ◌^◌, ◌<◌, ◌≤◌, from_bits, nat_lt};
ghost use Rattle.std.specs.Float.{binary64};
ghost use Rattle.square_root.specs.SquareRoot.{nearest_root, sqrt_of};

use std::num::wrapping_sub_u64;
use wide::{mulhi, mullo};

// Whether a * b is below the two-word number.
fn product_less(a: u64, b: u64, hi: u64, lo: u64) -> bool
    ensures { result ≡ nat_lt (a * b) (hi * 2 ^ 64 + lo) }
{
    (mulhi(a, b), mullo(a, b)) < (hi, lo)
}

// A line near 1 / √m: for j below 128 from m = 2 + j / 64 up to 2 + (j + 1) / 64, for k = j - 128 from 1 + k / 128 up to 1 + (k + 1) / 128. The upper half holds its value at 0, without the whole part, the lower half how much it falls from m to m + 1, both in units of 2^-32. tools/root_table.py prints it. A match, of which the compiler makes read-only data.
fn line(j: u64) -> u64 {
    match j {
        0 => 0x0f0068382cfdcb50,
        1 => 0x0df405222c78a3c2,
        2 => 0x0ceab9542bf607fa,
        3 => 0x0be475bc2b75e6a7,
        4 => 0x0ae12bae2af82f11,
        5 => 0x09e0ccdf2a7cd10b,
        6 => 0x08e34b652a03bcf7,
        7 => 0x07e899b2298ce3b9,
        8 => 0x06f0aa91291836b4,
        9 => 0x05fb712228a5a7c6,
        10 => 0x0508e0da28352943,
        11 => 0x0418ed7f27c6adef,
        12 => 0x032b8b24275a28fa,
        13 => 0x0240ae2726ef8dfd,
        14 => 0x01584b312686d0f4,
        15 => 0x00725732261fe63d,
        16 => 0xff8ec75d25bac290,
        17 => 0xfead912925575b00,
        18 => 0xfdceaa4d24f5a4f6,
        19 => 0xfcf208be2495962c,
        20 => 0xfc17a2b0243724ae,
        21 => 0xfb3f6e8f23da46d1,
        22 => 0xfa696301237ef338,
        23 => 0xf99576e5232520ca,
        24 => 0xf8c3a14d22ccc6b4,
        25 => 0xf7f3d9822275dc65,
        26 => 0xf72616fe2220598a,
        27 => 0xf65a516c21cc3612,
        28 => 0xf59080a821796a21,
        29 => 0xf4c89cbb2127ee1b,
        30 => 0xf4029ddc20d7ba96,
        31 => 0xf33e7c6e2088c860,
        32 => 0xf27c30fd203b107a,
        33 => 0xf1bbb4411fee8c18,
        34 => 0xf0fcff171fa3349b,
        35 => 0xf0400a871f590396,
        36 => 0xef84cfbc1f0ff2c7,
        37 => 0xeecb48061ec7fc18,
        38 => 0xee136cdc1e81199d,
        39 => 0xed5d37d51e3b4593,
        40 => 0xeca8a2ab1df67a5e,
        41 => 0xebf5a7391db2b288,
        42 => 0xeb443f7d1d6fe8bf,
        43 => 0xea94658f1d2e17d8,
        44 => 0xe9e613ac1ced3ac6,
        45 => 0xe93944291cad4ca0,
        46 => 0xe88df17d1c6e489e,
        47 => 0xe7e416371c302a15,
        48 => 0xe73bad061bf2ec7b,
        49 => 0xe694b0b11bb68b61,
        50 => 0xe5ef1c191b7b0276,
        51 => 0xe54aea3b1b404d84,
        52 => 0xe4a8162a1b066872,
        53 => 0xe4069b141acd4f3d,
        54 => 0xe366743d1a94fdff,
        55 => 0xe2c79d001a5d70e8,
        56 => 0xe22a10d11a26a442,
        57 => 0xe18dcb3619f0946b,
        58 => 0xe0f2c7cf19bb3dda,
        59 => 0xe059024d19869d1b,
        60 => 0xdfc076781952aece,
        61 => 0xdf29202b191f6fa9,
        62 => 0xde92fb5518ecdc76,
        63 => 0xddfe03f718baf210,
        64 => 0xdd6a36261889ad67,
        65 => 0xdcd78e0918590b7e,
        66 => 0xdc4607d818290965,
        67 => 0xdbb59fdc17f9a444,
        68 => 0xdb26527017cad94d,
        69 => 0xda981bff179ca5c8,
        70 => 0xda0af905176f0709,
        71 => 0xd97ee60c1741fa75,
        72 => 0xd8f3dfb017157d7f,
        73 => 0xd869e29a16e98daa,
        74 => 0xd7e0eb8316be2886,
        75 => 0xd758f73216934bb2,
        76 => 0xd6d2027b1668f4d7,
        77 => 0xd64c0a43163f21b0,
        78 => 0xd5c70b781615d001,
        79 => 0xd543031a15ecfd9d,
        80 => 0xd4bfee3215c4a85f,
        81 => 0xd43dc9d9159cce33,
        82 => 0xd3bc933115756d0d,
        83 => 0xd33c476b154e82ec,
        84 => 0xd2bce3c215280ddc,
        85 => 0xd23e657e15020bf2,
        86 => 0xd1c0c9f214dc7b4c,
        87 => 0xd1440e7b14b75a16,
        88 => 0xd0c830821492a682,
        89 => 0xd04d2d7b146e5ecd,
        90 => 0xcfd302e4144a813d,
        91 => 0xcf59ae4514270c22,
        92 => 0xcee12d2f1403fdd3,
        93 => 0xce697d4013e154b1,
        94 => 0xcdf29c1d13bf0f26,
        95 => 0xcd7c8774139d2ba2,
        96 => 0xcd073d00137ba89e,
        97 => 0xcc92ba80135a849c,
        98 => 0xcc1efdbf1339be24,
        99 => 0xcbac0491131953c6,
        100 => 0xcb39ccd112f9441a,
        101 => 0xcac8546312d98dbd,
        102 => 0xca57993312ba2f55,
        103 => 0xc9e79936129b278e,
        104 => 0xc9785267127c751a,
        105 => 0xc909c2ca125e16b2,
        106 => 0xc89be86c12400b16,
        107 => 0xc82ec15e1222510a,
        108 => 0xc7c24bbc1204e75b,
        109 => 0xc75685a511e7ccd9,
        110 => 0xc6eb6d4411cb005b,
        111 => 0xc68100c711ae80be,
        112 => 0xc6173e6511924ce3,
        113 => 0xc5ae2459117663b1,
        114 => 0xc545b0e8115ac416,
        115 => 0xc4dde25b113f6d02,
        116 => 0xc476b70111245d6c,
        117 => 0xc4102d3211099450,
        118 => 0xc3aa434910ef10ad,
        119 => 0xc344f7a810d4d188,
        120 => 0xc2e048b710bad5eb,
        121 => 0xc27c34e410a11ce3,
        122 => 0xc218baa21087a582,
        123 => 0xc1b5d86b106e6edf,
        124 => 0xc1538cbb10557814,
        125 => 0xc0f1d617103cc03f,
        126 => 0xc090b30810244684,
        127 => 0xc030221c100c0a09,
        128 => 0x7f410e4b7f413dd4,
        129 => 0x7dc57fcd7dc89fa8,
        130 => 0x7c4e50597c5734fc,
        131 => 0x7adb6aa07aecccd7,
        132 => 0x796cb9e1798937e8,
        133 => 0x780229e7782c4876,
        134 => 0x769ba70376d5d24f,
        135 => 0x75391e097585aab9,
        136 => 0x73da7c4d743ba860,
        137 => 0x727faf9b72f7a34c,
        138 => 0x7128a63471b974cf,
        139 => 0x6fd54ece7080f77a,
        140 => 0x6e85988b6f4e0711,
        141 => 0x6d3972f86e20807e,
        142 => 0x6bf0ce0c6cf841c8,
        143 => 0x6aab9a216bd52a03,
        144 => 0x6969c7f16ab7194b,
        145 => 0x682b4896699df0b8,
        146 => 0x66f00d8468899254,
        147 => 0x65b808886779e114,
        148 => 0x64832bc5666ec0cc,
        149 => 0x635169b26568162a,
        150 => 0x6222b5146465c6ad,
        151 => 0x60f701026367b89b,
        152 => 0x5fce40dd626dd2ff,
        153 => 0x5ea8684f6177fd9e,
        154 => 0x5d856b4b608620f0,
        155 => 0x5c653e095f98261c,
        156 => 0x5b47d5065eadf6f1,
        157 => 0x5a2d24fd5dc77de2,
        158 => 0x591522ee5ce4a5fa,
        159 => 0x57ffc4125c055ade,
        160 => 0x56ecfde15b2988c5,
        161 => 0x55dcc60d5a511c73,
        162 => 0x54cf1281597c0333,
        163 => 0x53c3d95e58aa2ad3,
        164 => 0x52bb10fd57db81a3,
        165 => 0x51b4afea570ff66b,
        166 => 0x50b0ace45647786c,
        167 => 0x4faefedc5581f759,
        168 => 0x4eaf9cf354bf6355,
        169 => 0x4db27e7953ffaced,
        170 => 0x4cb79aeb5342c518,
        171 => 0x4bbee9f552889d32,
        172 => 0x4ac8636b51d126f7,
        173 => 0x49d3ff4e511c5483,
        174 => 0x48e1b5c6506a184d,
        175 => 0x47f17f244fba6524,
        176 => 0x470353e24f0d2e2f,
        177 => 0x46172c9c4e6266e6,
        178 => 0x452d02164dba0313,
        179 => 0x4444cd384d13f6ce,
        180 => 0x435e870c4c70367b,
        181 => 0x427a28c04bceb6c8,
        182 => 0x4197aba24b2f6ca9,
        183 => 0x40b709224a924d59,
        184 => 0x3fd83acf49f74e54,
        185 => 0x3efb3a58495e655a,
        186 => 0x3e20018948c78868,
        187 => 0x3d468a4d4832adb9,
        188 => 0x3c6eceab479fcbc4,
        189 => 0x3b98c8c8470ed939,
        190 => 0x3ac472e3467fcd02,
        191 => 0x39f1c75645f29e3f,
        192 => 0x3920c09545674442,
        193 => 0x3851593044ddb696,
        194 => 0x37838bce4455ecf3,
        195 => 0x36b7532e43cfdf45,
        196 => 0x35ecaa28434b85a6,
        197 => 0x35238bad42c8d85e,
        198 => 0x345bf2c24247cfe3,
        199 => 0x3395da8441c864d4,
        200 => 0x32d13e25414a8ffc,
        201 => 0x320e18ee40ce4a50,
        202 => 0x314c663c40538ceb,
        203 => 0x308c217f3fda5110,
        204 => 0x2fcd463d3f629029,
        205 => 0x2f0fd00e3eec43c2,
        206 => 0x2e53ba9f3e77658e,
        207 => 0x2d9901af3e03ef60,
        208 => 0x2cdfa10d3d91db31,
        209 => 0x2c27949e3d212317,
        210 => 0x2b70d8563cb1c14b,
        211 => 0x2abb683a3c43b024,
        212 => 0x2a0740603bd6ea19,
        213 => 0x29545cf03b6b69bd,
        214 => 0x28a2ba203b0129c2,
        215 => 0x27f254373a9824f5,
        216 => 0x2743278b3a305640,
        217 => 0x2695308139c9b8a5,
        218 => 0x25e86b8e39644745,
        219 => 0x253cd53338fffd55,
        220 => 0x24926a02389cd628,
        221 => 0x23e92699383acd27,
        222 => 0x234107a437d9ddd2,
        223 => 0x229a09dd377a03c1,
        224 => 0x21f42a0b371b3aa3,
        225 => 0x214f650036bd7e3d,
        226 => 0x20abb79e3660ca69,
        227 => 0x20091ed136051b15,
        228 => 0x1f67979035aa6c47,
        229 => 0x1ec71ee13550ba14,
        230 => 0x1e27b1d334f800a9,
        231 => 0x1d894d8234a03c43,
        232 => 0x1cebef1434496934,
        233 => 0x1c4f93ba33f383dd,
        234 => 0x1bb438b1339e88b5,
        235 => 0x1b19db3f334a7440,
        236 => 0x1a8078b632f74316,
        237 => 0x19e80e6f32a4f1dd,
        238 => 0x195099d232537d4f,
        239 => 0x18ba184c3202e231,
        240 => 0x1824875531b31d5b,
        241 => 0x178fe47031642bb3,
        242 => 0x16fc2d2831160a2d,
        243 => 0x16695f1130c8b5cb,
        244 => 0x15d777c7307c2ba0,
        245 => 0x154674f0303068c9,
        246 => 0x14b6543c2fe56a73,
        247 => 0x1427135f2f9b2dd7,
        248 => 0x1398b01a2f51b03c,
        249 => 0x130b28332f08eef4,
        250 => 0x127e79792ec0e75e,
        251 => 0x11f2a1c32e7996e5,
        252 => 0x11679ef02e32fb01,
        253 => 0x10dd6ee52ded1133,
        254 => 0x10540f902da7d709,
        _ => 0x0fcb7ee62d634a1c,
    }
}

// About 2^61 √m, where m is from 1 up to 4 in units of 2^-62, by the line j; nothing is claimed of it. y and s are near 1 / √m and √m, in units of 2^-64 and 2^-62, from the line to eighteen binary digits; s times u, which is 1 + e / 2 + 3 e² / 8 for e = 1 - s y in units of 2^-63, has over fifty. The differences go round at 2^64, as they may.
fn guess(m: u64, j: u64) -> u64 {
    let l = line(j % 256);
    let y = wrapping_sub_u64(l, mulhi(l << 32, m) << 2);
    let s = mulhi(m, y);
    let d = mulhi(s, y);
    let v = wrapping_sub_u64(wrapping_sub_u64(0x4000_0000_0000_0000, d), d >> 1);
    let u = wrapping_sub_u64(0xf000_0000_0000_0000, mulhi(d << 1, v));
    mulhi(s, u)
}

// The whole number nearest to the root of the two-word number, from any s: q with (q - 1) * q < N ≤ q * (q + 1).
fn searched(s: u64, hi: u64, lo: u64) -> u64
    requires { (0 < hi) × (hi < 2 ^ 42) }
    ensures { (result ≡ nearest_root (hi * 2 ^ 64 + lo)) × (result ≤ 2 ^ 53) }
{
    let mut q = s.min(0x20_0000_0000_0000);
    // The turns search up and down from a guess: there is no list and no range to go over.
    while product_less(q, q + 1, hi, lo) {
        q += 1;
    }
    while !product_less(q - 1, q, hi, lo) {
        q -= 1;
    }
    q
}

// The same. Where s is the whole root or one less, and s * s has the same upper word, what is left of N says which of s and s + 1 is nearest.
fn nearest_root(s: u64, hi: u64, lo: u64) -> u64
    requires { (s < 2 ^ 58) × (0 < hi) × (hi < 2 ^ 42) }
    ensures { (result ≡ nearest_root (hi * 2 ^ 64 + lo)) × (result ≤ 2 ^ 53) }
{
    let l = mullo(s, s);
    if mulhi(s, s) == hi && l <= lo {
        let rest = lo - l;
        if rest <= 3 * s {
            return if rest <= s { s } else { s + 1 };
        }
    }
    searched(s, hi, lo)
}

// The pattern of 2^e times the root of m * 2^42, which has 53 digits: the place is added to the digits. The guess by the right line is off by less than 200; with 160 taken off it is the whole root or one less, but for one m in about five thousand.
fn scaled_root(m: u64, e: u64, j: u64) -> u64
    requires { (2 ^ 62 ≤ m) × (e ≤ 2000) }
    ensures { (result ≡ e * 2 ^ 52 + nearest_root (m * 2 ^ 42)) × (result < 2047 * 2 ^ 52) }
{
    let s = wrapping_sub_u64(guess(m, j), 160) >> 9;
    e * 0x10_0000_0000_0000 + nearest_root(s, m >> 22, m << 42)
}

// The pattern of the root of the positive finite number whose pattern is bits. The digits are moved to the top of m, or to one place below it where the exponent is then even, so that it can be halved. The line is told by that and by the seven digits after the first. A subnormal's digits are counted first.
fn positive_root(bits: u64) -> u64
    requires { (0 < bits) × (bits < 2047 * 2 ^ 52) }
    ensures { (from_bits binary64 result ≡ sqrt_of (from_bits binary64 bits)) × (result < 2047 * 2 ^ 52) }
{
    let odd = (bits >> 52) % 2;
    let mut m = (((bits & 0xf_ffff_ffff_ffff) + 0x10_0000_0000_0000) << 11) >> odd;
    let mut e = ((bits >> 52) + 1021) / 2;
    let mut j = bits >> 45;
    if bits < 0x10_0000_0000_0000 {
        let z = bits.leading_zeros() as u64;
        let f = 1085 - z;
        m = bits << (z - 1 + f % 2);
        e = (f - 52) / 2;
        j = (m >> (55 + f % 2)) % 128 + (1 - f % 2) * 128;
    }
    scaled_root(m, e, j)
}

// The root of x, correctly rounded: NaN where x is NaN or below zero, and x itself where it is a zero or the positive infinity.
pub fn sqrt(x: f64) -> f64
    ensures { result ≡ sqrt_of x }
{
    if x > 0.0 {
        if x < f64::INFINITY {
            return f64::from_bits(positive_root(x.to_bits()));
        }
        return x;
    }
    if x == 0.0 {
        return x;
    }
    f64::NAN
}
