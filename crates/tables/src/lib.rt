// The tables of exp and of ln. They stand apart because a check of a match takes time by the square of its arms.
#![tactic(auto)]

ghost use Rattle.std.specs.Prelude.{◌≡◌, ◌<◌, get_or};
ghost use Rattle.tables.specs.ExpTable.{exp_table};
ghost use Rattle.tables.specs.LnTable.{ln_table, inverse_of};

// e^(j / 256) in units of 2^-63, rounded down. One match with a value to each number and the last for the rest, which LLVM makes a read-only table of:
// a constant array is stored anew at each call, and a range in an arm makes a jump for each j.
pub fn exp_tab(j: u64) -> u64
    requires { j < 178 }
    ensures { result ≡ get_or exp_table j 0 }
{
    match j {
        0 => 0x8000000000000000,
        1 => 0x808040155aabbbe9,
        2 => 0x810100ab00222d86,
        3 => 0x81824241b103b504,
        4 => 0x8204055aaef1c8bd,
        5 => 0x82864a77bd1036e1,
        6 => 0x8309121b2086e8a7,
        7 => 0x838c5cc7a104277d,
        8 => 0x84102b00893f64c7,
        9 => 0x84947d49a77c8498,
        10 => 0x851954274e0fac0a,
        11 => 0x859eb01e53e19398,
        12 => 0x862491b414f45e14,
        13 => 0x86aaf96e72e8f4b3,
        14 => 0x8731e7d3d584e8b9,
        15 => 0x87b95d6b2b38db4b,
        16 => 0x88415abbe9a76bea,
        17 => 0x88c9e04e0e2cae21,
        18 => 0x8952eeaa1e6626ed,
        19 => 0x89dc865928bb5264,
        20 => 0x8a66a7e4c4e6b22a,
        21 => 0x8af153d7147f6537,
        22 => 0x8b7c8abac3834979,
        23 => 0x8c084d1b08e1a7db,
        24 => 0x8c949b83a7066b44,
        25 => 0x8d217680ec65e30e,
        26 => 0x8daede9fb4091181,
        27 => 0x8e3cd46d661a86f0,
        28 => 0x8ecb5877f873c9e8,
        29 => 0x8f5a6b4def2b4d19,
        30 => 0x8fea0d7e5d22f376,
        31 => 0x907a3f98e4972327,
        32 => 0x910b022db7ae67ce,
        33 => 0x919c55cd9909a4b9,
        34 => 0x922e3b09dc54d790,
        35 => 0x92c0b27466d86c10,
        36 => 0x9353bc9fb00b215a,
        37 => 0x93e75a1ec224817b,
        38 => 0x947b8b853aafebac,
        39 => 0x951051674b2031ed,
        40 => 0x95a5ac59b963ca80,
        41 => 0x963b9cf1e07995e9,
        42 => 0x96d223c5b10639f5,
        43 => 0x9769416bb1ea126e,
        44 => 0x9800f67b00d7b805,
        45 => 0x9899438b52eb1e16,
        46 => 0x99322934f54147c9,
        47 => 0x99cba810cd909545,
        48 => 0x9a65c0b85ac1a96a,
        49 => 0x9b0073c5b588e8ce,
        50 => 0x9b9bc1d39100927a,
        51 => 0x9c37ab7d3b437311,
        52 => 0x9cd4315e9e0832fb,
        53 => 0x9d7154143f3d4024,
        54 => 0x9e0f143b41a553fd,
        55 => 0x9ead727165749645,
        56 => 0x9f4c6f5508ee5d51,
        57 => 0x9fec0b8529038c5a,
        58 => 0xa08c47a161f19078,
        59 => 0xa12d2449efe1fcf2,
        60 => 0xa1cea21faf8ac771,
        61 => 0xa270c1c41ecf24c7,
        62 => 0xa31383d95d6106da,
        63 => 0xa3b6e9022d633c69,
        64 => 0xa45af1e1f40c333b,
        65 => 0xa4ff9f1cba495d61,
        66 => 0xa5a4f1572d633a32,
        67 => 0xa64ae9369fa203a4,
        68 => 0xa6f1876108f3009d,
        69 => 0xa798cc7d078e7cf3,
        70 => 0xa840b931e09e67ae,
        71 => 0xa8e94e2780e59844,
        72 => 0xa9928c067d67bb65,
        73 => 0xaa3c73781411e811,
        74 => 0xaae705262c63dd93,
        75 => 0xab9241bb5819eb0a,
        76 => 0xac3e29e2d3d7813b,
        77 => 0xaceabe4887d26f3a,
        78 => 0xad97ff99087ecab8,
        79 => 0xae45ee81973b847d,
        80 => 0xaef48bb022ffa9da,
        81 => 0xafa3d7d3490853ac,
        82 => 0xb053d39a558743aa,
        83 => 0xb1047fb5445230a5,
        84 => 0xb1b5dcd4c192c269,
        85 => 0xb267ebaa2a773dfa,
        86 => 0xb31aace78de3e2d0,
        87 => 0xb3ce213fad24f9c8,
        88 => 0xb4824965fca1967e,
        89 => 0xb537260ea48f0bca,
        90 => 0xb5ecb7ee81a513fc,
        91 => 0xb6a2ffbb25d2ada9,
        92 => 0xb759fe2ad8f3ada4,
        93 => 0xb811b3f4998706ef,
        94 => 0xb8ca21d01d65c942,
        95 => 0xb9834875d27ad6fb,
        96 => 0xba3d289edf7b5311,
        97 => 0xbaf7c305249fc7df,
        98 => 0xbbb318633c5e0768,
        99 => 0xbc6f29747c23c5dc,
        100 => 0xbd2bf6f4f511ef19,
        101 => 0xbde981a174b8b7d9,
        102 => 0xbea7ca3785d46b50,
        103 => 0xbf66d175710af5fd,
        104 => 0xc026981a3daa2e5d,
        105 => 0xc0e71ee5b266dc47,
        106 => 0xc1a86698561c7fb4,
        107 => 0xc26a6ff3708dd7a9,
        108 => 0xc32d3bb90b262a0a,
        109 => 0xc3f0caabf1bb4d17,
        110 => 0xc4b51d8fb350734e,
        111 => 0xc57a3528a2d9ba83,
        112 => 0xc640123bd8007ee1,
        113 => 0xc706b58f2fe872a7,
        114 => 0xc7ce1fe94df57b59,
        115 => 0xc89652119c925538,
        116 => 0xc95f4cd04df7fdb9,
        117 => 0xca2910ee5cf5e5d3,
        118 => 0xcaf39f358dbaecdc,
        119 => 0xcbbef8706e9f24c9,
        120 => 0xcc8b1d6a58ee609b,
        121 => 0xcd580eef71b38db6,
        122 => 0xce25cdccaa84d8ff,
        123 => 0xcef45acfc250a086,
        124 => 0xcfc3b6c7462b3282,
        125 => 0xd093e282921d5a79,
        126 => 0xd164ded1d1f3bd56,
        127 => 0xd236ac86020f054e,
        128 => 0xd3094c70f034de4b,
        129 => 0xd3dcbf653c61c3c7,
        130 => 0xd4b10636599ba0d9,
        131 => 0xd58621b88ec5434d,
        132 => 0xd65c12c0f772a298,
        133 => 0xd732da2584bdfb7f,
        134 => 0xd80a78bcfe1dc13f,
        135 => 0xd8e2ef5f023b651c,
        136 => 0xd9bc3ee407caf517,
        137 => 0xda9668255e6392b5,
        138 => 0xdb716bfd2f58c2aa,
        139 => 0xdc4d4b467e94963f,
        140 => 0xdd2a06dd2b72af4b,
        141 => 0xde079f9df19c1fa4,
        142 => 0xdee6166669e424d9,
        143 => 0xdfc56c150b25c11a,
        144 => 0xe0a5a1892b223221,
        145 => 0xe186b7a2ff60470b,
        146 => 0xe268af439e0c95ee,
        147 => 0xe34b894cfeda9219,
        148 => 0xe42f46a1fbe683dd,
        149 => 0xe513e826529862b6,
        150 => 0xe5f96ebea48792ce,
        151 => 0xe6dfdb50785f86a1,
        152 => 0xe7c72ec23ac545bf,
        153 => 0xe8af69fb3f3dd981,
        154 => 0xe9988de3c115a0a7,
        155 => 0xea829b64e4488ab0,
        156 => 0xeb6d9368b66b3bf1,
        157 => 0xec5976da2f951b38,
        158 => 0xed4646a5334b49fa,
        159 => 0xee3403b6916c87e7,
        160 => 0xef22aefc071e02e5,
        161 => 0xf01249643fb9143f,
        162 => 0xf102d3ded5b9ec1b,
        163 => 0xf1f44f5c53af2c05,
        164 => 0xf2e6bcce352a7191,
        165 => 0xf3da1d26e7b1d205,
        166 => 0xf4ce7159cbb247f1,
        167 => 0xf5c3ba5b357313b0,
        168 => 0xf6b9f9206e0a0fc3,
        169 => 0xf7b12e9fb450f9fd,
        170 => 0xf8a95bd03ddbb270,
        171 => 0xf9a281aa37ef7116,
        172 => 0xfa9ca126c87af32b,
        173 => 0xfb97bb400f0fa131,
        174 => 0xfc93d0f125dbae94,
        175 => 0xfd90e33622a533ef,
        176 => 0xfe8ef30c17c644e9,
        _ => 0xff8e0171152a029f,
    }
}

// 1 / (1 + j / 128) in units of 2^-63, rounded up, and ln(1 + j / 128) in units of 2^-64, rounded down, the last less 2^15.
#[derive(Clone, Copy)]
pub struct Row {
    pub inverse: u64,
    pub log: u64,
}

// One match, of which the compiler makes read-only data: of two it makes a jump for each j.
pub fn ln_row(j: u64) -> Row
    requires { j < 128 }
    ensures { (result.inverse ≡ inverse_of j) × (result.log ≡ get_or ln_table j 0) }
{
    match j {
        0 => Row {
            inverse: 0x8000000000000000,
            log: 0,
        },
        1 => Row {
            inverse: 0x7f01fc07f01fc080,
            log: 0x01fe02a6b106788f,
        },
        2 => Row {
            inverse: 0x7e07e07e07e07e08,
            log: 0x03f815161f807c79,
        },
        3 => Row {
            inverse: 0x7d1196792909c560,
            log: 0x05ee46c1f56c46aa,
        },
        4 => Row {
            inverse: 0x7c1f07c1f07c1f08,
            log: 0x07e0a6c39e0cc013,
        },
        5 => Row {
            inverse: 0x7b301ecc07b301ed,
            log: 0x09cf43dcff5eafd4,
        },
        6 => Row {
            inverse: 0x7a44c6afc2dd9ca9,
            log: 0x0bba2c7b196e7e23,
        },
        7 => Row {
            inverse: 0x795ceb240795ceb3,
            log: 0x0da16eb88cb8df61,
        },
        8 => Row {
            inverse: 0x7878787878787879,
            log: 0x0f85186008b15330,
        },
        9 => Row {
            inverse: 0x77975b8fe21a291d,
            log: 0x116536eea37ae0e8,
        },
        10 => Row {
            inverse: 0x76b981dae6076b99,
            log: 0x1341d7961bd1d092,
        },
        11 => Row {
            inverse: 0x75ded952e0b0ce46,
            log: 0x151b073f06183f69,
        },
        12 => Row {
            inverse: 0x7507507507507508,
            log: 0x16f0d28ae56b4b9b,
        },
        13 => Row {
            inverse: 0x7432d63dbb01d0cc,
            log: 0x18c345d6319b20f5,
        },
        14 => Row {
            inverse: 0x73615a240e6c2b45,
            log: 0x1a926d3a4ad56365,
        },
        15 => Row {
            inverse: 0x7292cc157b864408,
            log: 0x1c5e548f5bc74315,
        },
        16 => Row {
            inverse: 0x71c71c71c71c71c8,
            log: 0x1e27076e2af2e5e9,
        },
        17 => Row {
            inverse: 0x70fe3c070fe3c071,
            log: 0x1fec9131dbeabaaa,
        },
        18 => Row {
            inverse: 0x70381c0e070381c1,
            log: 0x21aefcf9a11cb2cd,
        },
        19 => Row {
            inverse: 0x6f74ae26501bdd2c,
            log: 0x236e55aa5ecf4052,
        },
        20 => Row {
            inverse: 0x6eb3e45306eb3e46,
            log: 0x252aa5f03fea4698,
        },
        21 => Row {
            inverse: 0x6df5b0f768ce2cac,
            log: 0x26e3f8403d1ee877,
        },
        22 => Row {
            inverse: 0x6d3a06d3a06d3a07,
            log: 0x289a56d996fa3ccf,
        },
        23 => Row {
            inverse: 0x6c80d901b2036407,
            log: 0x2a4dcbc743686f45,
        },
        24 => Row {
            inverse: 0x6bca1af286bca1b0,
            log: 0x2bfe60e14f27a790,
        },
        25 => Row {
            inverse: 0x6b15c06b15c06b16,
            log: 0x2dac1fce33a4391a,
        },
        26 => Row {
            inverse: 0x6a63bd81a98ef607,
            log: 0x2f57120421b21237,
        },
        27 => Row {
            inverse: 0x69b4069b4069b407,
            log: 0x30ff40ca41922120,
        },
        28 => Row {
            inverse: 0x6906906906906907,
            log: 0x32a4b539e8ad68ec,
        },
        29 => Row {
            inverse: 0x685b4fe5e92c0686,
            log: 0x3447783fc56ac632,
        },
        30 => Row {
            inverse: 0x67b23a5440cf6475,
            log: 0x35e7929d017fe5b1,
        },
        31 => Row {
            inverse: 0x670b453b92840671,
            log: 0x37850ce85b19ac53,
        },
        32 => Row {
            inverse: 0x6666666666666667,
            log: 0x391fef8f35344358,
        },
        33 => Row {
            inverse: 0x65c393e032e1c9f1,
            log: 0x3ab842d69f7722b7,
        },
        34 => Row {
            inverse: 0x6522c3f35ba78195,
            log: 0x3c4e0edc55e5cbd3,
        },
        35 => Row {
            inverse: 0x6483ed274388a357,
            log: 0x3de15b97b8b26ca4,
        },
        36 => Row {
            inverse: 0x63e7063e7063e707,
            log: 0x3f7230dabc7c551a,
        },
        37 => Row {
            inverse: 0x634c0634c0634c07,
            log: 0x41009652d341036b,
        },
        38 => Row {
            inverse: 0x62b2e43dafcea68e,
            log: 0x428c9389ce438d7d,
        },
        39 => Row {
            inverse: 0x621b97c2aec12653,
            log: 0x44162fe6b92b5462,
        },
        40 => Row {
            inverse: 0x6186186186186187,
            log: 0x459d72aeae98380e,
        },
        41 => Row {
            inverse: 0x60f25deacafb74a4,
            log: 0x47226305a667ebef,
        },
        42 => Row {
            inverse: 0x6060606060606061,
            log: 0x48a507ef3de59689,
        },
        43 => Row {
            inverse: 0x5fd017f405fd0180,
            log: 0x4a25684f7a1a8d7a,
        },
        44 => Row {
            inverse: 0x5f417d05f417d060,
            log: 0x4ba38aeb8474c270,
        },
        45 => Row {
            inverse: 0x5eb4882383b30d52,
            log: 0x4d1f766a61f55359,
        },
        46 => Row {
            inverse: 0x5e293205e293205f,
            log: 0x4e993155a517a71c,
        },
        47 => Row {
            inverse: 0x5d9f7390d2a6c406,
            log: 0x5010c21a1a9f8ef4,
        },
        48 => Row {
            inverse: 0x5d1745d1745d1746,
            log: 0x51862f08717b09f4,
        },
        49 => Row {
            inverse: 0x5c90a1fd1b7af018,
            log: 0x52f97e55dde2836d,
        },
        50 => Row {
            inverse: 0x5c0b81702e05c0b9,
            log: 0x546ab61cb7e0b427,
        },
        51 => Row {
            inverse: 0x5b87ddad0cdf1b2d,
            log: 0x55d9dc5d1569b152,
        },
        52 => Row {
            inverse: 0x5b05b05b05b05b06,
            log: 0x5746f6fd60272942,
        },
        53 => Row {
            inverse: 0x5a84f3454dca4110,
            log: 0x58b20bcae71e54bd,
        },
        54 => Row {
            inverse: 0x5a05a05a05a05a06,
            log: 0x5a1b207a6c52bb11,
        },
        55 => Row {
            inverse: 0x5987b1a9448be406,
            log: 0x5b823aa8ae878e30,
        },
        56 => Row {
            inverse: 0x590b21642c8590b3,
            log: 0x5ce75fdaef401a73,
        },
        57 => Row {
            inverse: 0x588fe9dc0588fe9e,
            log: 0x5e4a957f751e89f0,
        },
        58 => Row {
            inverse: 0x5816058160581606,
            log: 0x5fabe0ee0abf0d92,
        },
        59 => Row {
            inverse: 0x579d6ee340579d6f,
            log: 0x610b47687a2c5d24,
        },
        60 => Row {
            inverse: 0x572620ae4c415c99,
            log: 0x6268ce1b05096ad6,
        },
        61 => Row {
            inverse: 0x56b015ac056b015b,
            log: 0x63c47a1cd98b1df8,
        },
        62 => Row {
            inverse: 0x563b48c20563b48d,
            log: 0x651e5070845beae9,
        },
        63 => Row {
            inverse: 0x55c7b4f141ace689,
            log: 0x667656045f822b2e,
        },
        64 => Row {
            inverse: 0x5555555555555556,
            log: 0x67cc8fb2fe612fca,
        },
        65 => Row {
            inverse: 0x54e42523d03fab1c,
            log: 0x6921024396ec28af,
        },
        66 => Row {
            inverse: 0x54741fab8be05475,
            log: 0x6a73b26a68212635,
        },
        67 => Row {
            inverse: 0x5405405405405406,
            log: 0x6bc4a4c91de1ac44,
        },
        68 => Row {
            inverse: 0x5397829cbc14e5e1,
            log: 0x6d13ddef323d8a32,
        },
        69 => Row {
            inverse: 0x532ae21c96bdb9d4,
            log: 0x6e61625a4c43ed66,
        },
        70 => Row {
            inverse: 0x52bf5a814afd6a06,
            log: 0x6fad36769c6defde,
        },
        71 => Row {
            inverse: 0x5254e78ecb419ba9,
            log: 0x70f75e9f36b535ce,
        },
        72 => Row {
            inverse: 0x51eb851eb851eb86,
            log: 0x723fdf1e6a6886b0,
        },
        73 => Row {
            inverse: 0x51832f1fd73e6871,
            log: 0x7386bc2e17cfaded,
        },
        74 => Row {
            inverse: 0x511be1958b67ebba,
            log: 0x74cbf9f803af5587,
        },
        75 => Row {
            inverse: 0x50b59897547e1bbf,
            log: 0x760f9c9628bcf941,
        },
        76 => Row {
            inverse: 0x5050505050505051,
            log: 0x7751a813071282fb,
        },
        77 => Row {
            inverse: 0x4fec04fec04fec05,
            log: 0x78922069f1b09872,
        },
        78 => Row {
            inverse: 0x4f88b2f392a409f2,
            log: 0x79d109875a1e1f8d,
        },
        79 => Row {
            inverse: 0x4f265691eeaf9d11,
            log: 0x7b0e67491a33005d,
        },
        80 => Row {
            inverse: 0x4ec4ec4ec4ec4ec5,
            log: 0x7c4a3d7ebc1bb2cd,
        },
        81 => Row {
            inverse: 0x4e6470b061fd8cdd,
            log: 0x7d848fe9c0a2b185,
        },
        82 => Row {
            inverse: 0x4e04e04e04e04e05,
            log: 0x7ebd623de3cc7b66,
        },
        83 => Row {
            inverse: 0x4da637cf781d1e55,
            log: 0x7ff4b8215fd26156,
        },
        84 => Row {
            inverse: 0x4d4873ecade304d5,
            log: 0x812a952d2e87f634,
        },
        85 => Row {
            inverse: 0x4ceb916d5ef2c784,
            log: 0x825efced4936932f,
        },
        86 => Row {
            inverse: 0x4c8f8d28ac42fd9c,
            log: 0x8391f2e0e6fa0272,
        },
        87 => Row {
            inverse: 0x4c346404c346404d,
            log: 0x84c37a7ab9a905c8,
        },
        88 => Row {
            inverse: 0x4bda12f684bda130,
            log: 0x85f39721295415b4,
        },
        89 => Row {
            inverse: 0x4b8097012e025c05,
            log: 0x87224c2e8e645fb7,
        },
        90 => Row {
            inverse: 0x4b27ed3604b27ed4,
            log: 0x884f9cf16a64b7ef,
        },
        91 => Row {
            inverse: 0x4ad012b404ad012c,
            log: 0x897b8cac9f7de298,
        },
        92 => Row {
            inverse: 0x4a7904a7904a7905,
            log: 0x8aa61e97a6af4d4c,
        },
        93 => Row {
            inverse: 0x4a22c04a22c04a23,
            log: 0x8bcf55dec4cd05fe,
        },
        94 => Row {
            inverse: 0x49cd42e2049cd42f,
            log: 0x8cf735a33e4b7662,
        },
        95 => Row {
            inverse: 0x497889c2024bc44f,
            log: 0x8e1dc0fb89e125e4,
        },
        96 => Row {
            inverse: 0x4924924924924925,
            log: 0x8f42faf3820681ef,
        },
        97 => Row {
            inverse: 0x48d159e26af37c05,
            log: 0x9066e68c955b6c9a,
        },
        98 => Row {
            inverse: 0x487ede0487ede049,
            log: 0x918986bdf5fa1416,
        },
        99 => Row {
            inverse: 0x482d1c319f03621e,
            log: 0x92aade74c7be59e0,
        },
        100 => Row {
            inverse: 0x47dc11f7047dc120,
            log: 0x93caf0944d88d75b,
        },
        101 => Row {
            inverse: 0x478bbcecfee1d10d,
            log: 0x94e9bff615845642,
        },
        102 => Row {
            inverse: 0x473c1ab68a0473c2,
            log: 0x96074f6a24745dcb,
        },
        103 => Row {
            inverse: 0x46ed29011bb4a405,
            log: 0x9723a1b720134202,
        },
        104 => Row {
            inverse: 0x469ee58469ee5847,
            log: 0x983eb99a7885f0fd,
        },
        105 => Row {
            inverse: 0x46514e02328a7012,
            log: 0x995899c890eb8990,
        },
        106 => Row {
            inverse: 0x4604604604604605,
            log: 0x9a7144ece70e98b7,
        },
        107 => Row {
            inverse: 0x45b81a2509cde3ae,
            log: 0x9b88bdaa3a3dae2e,
        },
        108 => Row {
            inverse: 0x456c797dd49c3412,
            log: 0x9c9f069ab150cd4e,
        },
        109 => Row {
            inverse: 0x45217c382b34eda4,
            log: 0x9db4224fffe1157c,
        },
        110 => Row {
            inverse: 0x44d72044d72044d8,
            log: 0x9ec813538ab7d520,
        },
        111 => Row {
            inverse: 0x448d639d74c0cda9,
            log: 0x9fdadc268b7a12da,
        },
        112 => Row {
            inverse: 0x4444444444444445,
            log: 0xa0ec7f4233957323,
        },
        113 => Row {
            inverse: 0x43fbc043fbc043fc,
            log: 0xa1fcff17ce733bd3,
        },
        114 => Row {
            inverse: 0x43b3d5af9a723f79,
            log: 0xa30c5e10e2f613e8,
        },
        115 => Row {
            inverse: 0x436c82a23d1a5664,
            log: 0xa41a9e8f5446fb9e,
        },
        116 => Row {
            inverse: 0x4325c53ef368eb05,
            log: 0xa527c2ed81f5d811,
        },
        117 => Row {
            inverse: 0x42df9bb096771e4e,
            log: 0xa633cd7e6771cd8b,
        },
        118 => Row {
            inverse: 0x429a0429a0429a05,
            log: 0xa73ec08dbadd84e5,
        },
        119 => Row {
            inverse: 0x4254fce404254fcf,
            log: 0xa8489e600b435a5e,
        },
        120 => Row {
            inverse: 0x4210842108421085,
            log: 0xa9516932de2d5773,
        },
        121 => Row {
            inverse: 0x41cc98291fdf19b4,
            log: 0xaa59233ccca4bd48,
        },
        122 => Row {
            inverse: 0x4189374bc6a7ef9e,
            log: 0xab5fcead9f9cca08,
        },
        123 => Row {
            inverse: 0x41465fdf5cd01052,
            log: 0xac656dae6bcc4984,
        },
        124 => Row {
            inverse: 0x4104104104104105,
            log: 0xad6a0261acf967d9,
        },
        125 => Row {
            inverse: 0x40c246d47d78693c,
            log: 0xae6d8ee360bb2467,
        },
        126 => Row {
            inverse: 0x4081020408102041,
            log: 0xaf70154920b3ab86,
        },
        _ => Row {
            inverse: 0x4040404040404041,
            log: 0xb07197a23c464653,
        },
    }
}
