// Blocks that the reader takes or refuses.
use std::io;

// The number that the reader answers for a block.
fn read(rt: &impl Print, text: &str, block: &[u8]) -> io::Result<()> {
    let number = questions::number_of(mac_reader::read_block(block).map(|_| ()));
    println!(rt; "{text} {number}")
}

// A MAC-END of three octets, with its two flags in the second octet.
fn end_flags(rt: &impl Print) -> io::Result<()> {
    let mut block = [0u8; 34];
    block[0] = 0x70;
    block[1] = 0x60;
    block[2] = 0x80;
    block[3] = 0x40;
    read(rt, "D5 MAC-END with flags 0 read:", &block)?;
    block[1] = 0x70;
    read(
        rt,
        "D5 MAC-END with its slot granting flag set read:",
        &block,
    )?;
    block[1] = 0x68;
    read(
        rt,
        "D5 MAC-END with its channel allocation flag set read:",
        &block,
    )
}

// A MAC-RESOURCE of nine octets with a channel allocation, its direction in the seventh octet and its extended carrier in the ninth.
fn allocations(rt: &impl Print) -> io::Result<()> {
    let mut block = [0u8; 34];
    block[0] = 0x20;
    block[1] = 0x49;
    block[4] = 0x01;
    block[5] = 0x22;
    block[6] = 0x61;
    block[7] = 0xf4;
    block[8] = 0x06;
    block[10] = 0x10;
    read(rt, "R11 direction 3 read:", &block)?;
    block[6] = 0x01;
    read(rt, "R11 direction 0 read:", &block)?;
    block[6] = 0x61;
    block[8] = 0x46;
    read(rt, "R11 extended carrier read:", &block)
}

// A null PDU, its fields in the first octet.
fn nulls(rt: &impl Print) -> io::Result<()> {
    let mut block = [0u8; 34];
    block[1] = 0x10;
    read(rt, "R23 null PDU read:", &block)?;
    block[0] = 0x20;
    read(rt, "R23 null PDU with fill bit 1 read:", &block)?;
    block[0] = 0x10;
    read(rt, "R23 null PDU with position 1 read:", &block)?;
    block[0] = 0x04;
    read(rt, "R23 null PDU with encryption 1 read:", &block)?;
    block[0] = 0x02;
    read(rt, "R23 null PDU with random access flag 1 read:", &block)
}

// A MAC-RESOURCE of 31 octets, and at bit 248 a null PDU or a header with an SSI, which has 43 bits.
fn behind_the_block(rt: &impl Print) -> io::Result<()> {
    let mut block = [0u8; 34];
    block[1] = 0xf9;
    block[4] = 0x01;
    block[32] = 0x10;
    read(rt, "R24 null PDU at bit 248 read:", &block)?;
    block[32] = 0x11;
    read(rt, "R24 header of 43 bits at bit 248 read:", &block)?;
    block[31] = 0x01;
    block[32] = 0xf9;
    read(
        rt,
        "R24 header of 43 bits at bit 248, to the block's end, read:",
        &block,
    )
}

// A MAC-RESOURCE of six octets with an SSI, its encryption in the first octet.
fn encryption(rt: &impl Print) -> io::Result<()> {
    let mut block = [0u8; 34];
    block[0] = 0x20;
    block[1] = 0x31;
    block[4] = 0x01;
    block[5] = 0x10;
    block[7] = 0x10;
    read(rt, "R25 SSI with encryption 0 read:", &block)?;
    block[0] = 0x24;
    read(rt, "R25 SSI with encryption 1 read:", &block)
}

// The same with other length codes, their first bit in the first octet.
fn length_codes(rt: &impl Print) -> io::Result<()> {
    let mut block = [0u8; 34];
    block[4] = 0x01;
    block[1] = 0x01;
    read(rt, "R26 length code 0 read:", &block)?;
    block[1] = 0x09;
    read(rt, "R26 length code 1 read:", &block)?;
    block[0] = 0x01;
    block[1] = 0x19;
    read(rt, "R26 length code 35 read:", &block)?;
    block[1] = 0xf1;
    read(rt, "R26 length code 62 read:", &block)
}

// Length code 63 in a MAC-RESOURCE, a null PDU and a MAC-END.
fn code_63(rt: &impl Print) -> io::Result<()> {
    let mut block = [0u8; 34];
    block[0] = 0x01;
    block[1] = 0xf9;
    read(rt, "R27 MAC-RESOURCE with code 63 read:", &block)?;
    block[1] = 0xf8;
    read(rt, "R27 null PDU with code 63 read:", &block)?;
    block[0] = 0x67;
    block[1] = 0xe0;
    read(rt, "R27 MAC-END with code 63 read:", &block)
}

// A header of 43 bits in PDUs of 33, 34 and 5 octets.
fn inside(rt: &impl Print) -> io::Result<()> {
    let mut block = [0u8; 34];
    block[0] = 0x01;
    block[1] = 0x09;
    read(rt, "R28 PDU of 33 octets read:", &block)?;
    block[1] = 0x11;
    read(rt, "R28 PDU of 34 octets read:", &block)?;
    block[0] = 0x00;
    block[1] = 0x29;
    read(rt, "R29 header of 43 bits in a PDU of 40 read:", &block)
}

// The types behind MAC-RESOURCE and MAC-FRAG, and the bits behind a null PDU and the block.
fn types(rt: &impl Print) -> io::Result<()> {
    let mut block = [0u8; 34];
    block[0] = 0x80;
    read(rt, "R30 PDU of type 10 read:", &block)?;
    block[0] = 0xc0;
    read(rt, "R30 PDU of type 11 read:", &block)?;
    block[0] = 0x00;
    block[1] = 0x10;
    block[33] = 0x10;
    read(rt, "R31 bit 267 set, read:", &block)?;
    block[33] = 0x01;
    read(rt, "R31 bit 271 set, read:", &block)
}

pub(crate) fn run(rt: &impl Print) -> io::Result<()> {
    end_flags(rt)?;
    allocations(rt)?;
    nulls(rt)?;
    behind_the_block(rt)?;
    encryption(rt)?;
    length_codes(rt)?;
    code_63(rt)?;
    inside(rt)?;
    types(rt)
}
