// The CRC-32 of IEEE 802.3, eight bytes in a turn: each half byte is looked up in a table of sixteen.
#![tactic(auto)]

ghost use Rattle.std.specs.Prelude.{◌≡◌, ◌+◌, ◌*◌, ◌%◌, ◌≤◌, ◌<◌, length, drop};
ghost use Rattle.crc.specs.Crc.{ones, on_byte, on_bytes, crc32};
ghost use Rattle.crc.specs.Words.{pair, four};

const ONES: u32 = 0xFFFF_FFFF;

// What 4, 8 .. 32 shifts make of half a byte, sixteen entries each, and above it what 32 more make.
const TABLE: [u64; 128] = [
    0x00000000_00000000,
    0x60E09782_1DB71064,
    0xC1C12F04_3B6E20C8,
    0xA121B886_26D930AC,
    0x58F35849_76DC4190,
    0x3813CFCB_6B6B51F4,
    0x9932774D_4DB26158,
    0xF9D2E0CF_5005713C,
    0xB1E6B092_EDB88320,
    0xD1062710_F00F9344,
    0x70279F96_D6D6A3E8,
    0x10C70814_CB61B38C,
    0xE915E8DB_9B64C2B0,
    0x89F57F59_86D3D2D4,
    0x28D4C7DF_A00AE278,
    0x4834505D_BDBDF21C,
    0x00000000_00000000,
    0x3D6029B0_77073096,
    0x7AC05360_EE0E612C,
    0x47A07AD0_990951BA,
    0xF580A6C0_076DC419,
    0xC8E08F70_706AF48F,
    0x8F40F5A0_E963A535,
    0xB220DC10_9E6495A3,
    0x30704BC1_0EDB8832,
    0x0D106271_79DCB8A4,
    0x4AB018A1_E0D5E91E,
    0x77D03111_97D2D988,
    0xC5F0ED01_09B64C2B,
    0xF890C4B1_7EB17CBD,
    0xBF30BE61_E7B82D07,
    0x825097D1_90BF1D91,
    0x00000000_00000000,
    0x03D6029B_4AC21251,
    0x07AC0536_958424A2,
    0x047A07AD_DF4636F3,
    0x0F580A6C_F0794F05,
    0x0C8E08F7_BABB5D54,
    0x08F40F5A_65FD6BA7,
    0x0B220DC1_2F3F79F6,
    0x1EB014D8_3B83984B,
    0x1D661643_71418A1A,
    0x191C11EE_AE07BCE9,
    0x1ACA1375_E4C5AEB8,
    0x11E81EB4_CBFAD74E,
    0x123E1C2F_8138C51F,
    0x16441B82_5E7EF3EC,
    0x15921919_14BCE1BD,
    0x00000000_00000000,
    0xCB5CD3A5_191B3141,
    0x4DC8A10B_32366282,
    0x869472AE_2B2D53C3,
    0x9B914216_646CC504,
    0x50CD91B3_7D77F445,
    0xD659E31D_565AA786,
    0x1D0530B8_4F4196C7,
    0xEC53826D_C8D98A08,
    0x270F51C8_D1C2BB49,
    0xA19B2366_FAEFE88A,
    0x6AC7F0C3_E3F4D9CB,
    0x77C2C07B_ACB54F0C,
    0xBC9E13DE_B5AE7E4D,
    0x3A0A6170_9E832D8E,
    0xF156B2D5_87981CCF,
    0x00000000_00000000,
    0x67DE9CCE_1C26A370,
    0xCFBD399C_384D46E0,
    0xA863A552_246BE590,
    0x440B7579_709A8DC0,
    0x23D5E9B7_6CBC2EB0,
    0x8BB64CE5_48D7CB20,
    0xEC68D02B_54F16850,
    0x8816EAF2_E1351B80,
    0xEFC8763C_FD13B8F0,
    0x47ABD36E_D9785D60,
    0x20754FA0_C55EFE10,
    0xCC1D9F8B_91AF9640,
    0xABC30345_8D893530,
    0x03A0A617_A9E2D0A0,
    0x647E3AD9_B5C473D0,
    0x00000000_00000000,
    0xA6770BB4_01C26A37,
    0x979F1129_0384D46E,
    0x31E81A9D_0246BE59,
    0xF44F2413_0709A8DC,
    0x52382FA7_06CBC2EB,
    0x63D0353A_048D7CB2,
    0xC5A73E8E_054F1685,
    0x33EF4E67_0E1351B8,
    0x959845D3_0FD13B8F,
    0xA4705F4E_0D9785D6,
    0x020754FA_0C55EFE1,
    0xC7A06A74_091AF964,
    0x61D761C0_08D89353,
    0x503F7B5D_0A9E2D0A,
    0xF64870E9_0B5C473D,
    0x00000000_00000000,
    0x7CBB312B_5019579F,
    0xF9766256_A032AF3E,
    0x85CD537D_F02BF8A1,
    0x299DC2ED_9B14583D,
    0x5526F3C6_CB0D0FA2,
    0xD0EBA0BB_3B26F703,
    0xAC509190_6B3FA09C,
    0x533B85DA_ED59B63B,
    0x2F80B4F1_BD40E1A4,
    0xAA4DE78C_4D6B1905,
    0xD6F6D6A7_1D724E9A,
    0x7AA64737_764DEE06,
    0x061D761C_2654B999,
    0x83D02561_D67F4138,
    0xFF6B144A_866616A7,
    0x00000000_00000000,
    0xCCAA009E_B8BC6765,
    0x4225077D_AA09C88B,
    0x8E8F07E3_12B5AFEE,
    0x844A0EFA_8F629757,
    0x48E00E64_37DEF032,
    0xC66F0987_256B5FDC,
    0x0AC50919_9DD738B9,
    0xD3E51BB5_C5B428EF,
    0x1F4F1B2B_7D084F8A,
    0x91C01CC8_6FBDE064,
    0x5D6A1C56_D7018701,
    0x57AF154F_4AD6BFB8,
    0x9B0515D1_F26AD8DD,
    0x158A1232_E0DF7733,
    0xD92012AC_58631056,
];

// What so many shifts make of half a byte, and above it what 32 more make.
fn nibble<const SHIFTS: usize>(n: u32) -> u64
    requires { (n < 16) × (SHIFTS % 4 ≡ 0) × (4 ≤ SHIFTS) × (SHIFTS ≤ 32) }
    ensures { result ≡ pair SHIFTS n }
{
    TABLE[4 * SHIFTS - 16 + n as usize]
}

// The low sixteen bits of a word, by four tables. One function of both halves would ask `nibble` for a count worked out from its own, which no const
// argument can be.
fn low_half(x: u32) -> u64
    requires { x < 65536 }
    ensures { result ≡ pair 32 x }
{
    let second = x / 16;
    let third = second / 16;
    nibble::<32>(x % 16)
        ^ nibble::<28>(second % 16)
        ^ nibble::<24>(third % 16)
        ^ nibble::<20>(third / 16)
}

// The high sixteen bits.
fn high_half(x: u32) -> u64
    requires { x < 65536 }
    ensures { result ≡ pair 16 x }
{
    let second = x / 16;
    let third = second / 16;
    nibble::<16>(x % 16)
        ^ nibble::<12>(second % 16)
        ^ nibble::<8>(third % 16)
        ^ nibble::<4>(third / 16)
}

// What 32 shifts make of a word, and above it what 64 make.
fn word(x: u32) -> u64
    ensures { result ≡ pair 32 x }
{
    low_half(x % 65536) ^ high_half(x / 65536)
}

// Four of eight bytes as a word: the compiler sees one load.
fn load(eight: &[u8; 8], at: usize) -> u32
    requires { at ≤ 4 }
    ensures { result ≡ four eight.now at }
{
    u32::from(eight[at])
        + u32::from(eight[at + 1]) * 256
        + u32::from(eight[at + 2]) * 65536
        + u32::from(eight[at + 3]) * 16777216
}

// Eight bytes: the first four, with the state in them, go through 64 shifts and the last four through 32.
fn on_eight(c: u32, eight: &[u8; 8]) -> u32
    ensures { result ≡ on_bytes c eight.now }
{
    let first = word(c ^ load(eight, 0));
    let last = word(load(eight, 4));
    ((first / 4294967296) as u32) ^ ((last % 4294967296) as u32)
}

// One byte: the bits that stay, and what those that leave make.
fn on_byte(c: u32, b: u8) -> u32
    ensures { result ≡ on_byte c b }
{
    let left = (c ^ u32::from(b)) % 256;
    let made = nibble::<8>(left % 16) ^ nibble::<4>(left / 16);
    (c / 256) ^ ((made % 4294967296) as u32)
}

// The bytes that are left behind the last eight, one by one.
fn on_rest(before: u32, rest: &[u8]) -> u32
    ensures { result ≡ on_bytes before rest.now }
{
    let mut c = before;
    for &b in rest {
        c = on_byte(c, b);
    }
    c
}

pub fn crc32(bytes: &[u8]) -> u32
    ensures { result ≡ crc32 bytes.now }
{
    let mut c = ONES;
    let mut rest = bytes;
    while let Some((eight, tail)) = rest.split_first_chunk::<8>() {
        c = on_eight(c, eight);
        rest = tail;
    }
    on_rest(c, rest) ^ ONES
}
