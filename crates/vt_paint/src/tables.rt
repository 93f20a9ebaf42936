//! Speed: the parts of a header, spelled: the row of a position, its column, and a brush. Each entry of a table is
//! padded with spaces, so that it is copied whole.
ghost use Rattle.std.specs.Prelude.{◌≡◌, ◌+◌, ◌≤◌, ◌<◌, ◌^◌, take, length};
ghost use Rattle.vt_screen.specs.declared.cell.Brush.{Brush};
ghost use Rattle.vt_screen.specs.Cells.{brush_of};
ghost use Rattle.vt_paint.specs.Limits.{row_digits};
ghost use Rattle.vt_paint.specs.Private.HeaderParts.{row_part, column_part, brush_part, brush_number, brush_index};

use vt_screen::{Cell, MOST};

/// The number of bytes of an entry of each table.
const ROW_LEN: usize = 8;

const COLUMN_LEN: usize = 8;

const BRUSH_LEN: usize = 16;

/// CUP up to the column, for each row from 1 to 255. The last byte of an entry is the length of this part.
const ROW_PARTS: [u8; 2040] =
    *b"\x1B[1;   \x04\x1B[2;   \x04\x1B[3;   \x04\x1B[4;   \x04\x1B[5;   \x04\x1B[6;   \x04\
    \x1B[7;   \x04\x1B[8;   \x04\x1B[9;   \x04\x1B[10;  \x05\x1B[11;  \x05\x1B[12;  \x05\
    \x1B[13;  \x05\x1B[14;  \x05\x1B[15;  \x05\x1B[16;  \x05\x1B[17;  \x05\x1B[18;  \x05\
    \x1B[19;  \x05\x1B[20;  \x05\x1B[21;  \x05\x1B[22;  \x05\x1B[23;  \x05\x1B[24;  \x05\
    \x1B[25;  \x05\x1B[26;  \x05\x1B[27;  \x05\x1B[28;  \x05\x1B[29;  \x05\x1B[30;  \x05\
    \x1B[31;  \x05\x1B[32;  \x05\x1B[33;  \x05\x1B[34;  \x05\x1B[35;  \x05\x1B[36;  \x05\
    \x1B[37;  \x05\x1B[38;  \x05\x1B[39;  \x05\x1B[40;  \x05\x1B[41;  \x05\x1B[42;  \x05\
    \x1B[43;  \x05\x1B[44;  \x05\x1B[45;  \x05\x1B[46;  \x05\x1B[47;  \x05\x1B[48;  \x05\
    \x1B[49;  \x05\x1B[50;  \x05\x1B[51;  \x05\x1B[52;  \x05\x1B[53;  \x05\x1B[54;  \x05\
    \x1B[55;  \x05\x1B[56;  \x05\x1B[57;  \x05\x1B[58;  \x05\x1B[59;  \x05\x1B[60;  \x05\
    \x1B[61;  \x05\x1B[62;  \x05\x1B[63;  \x05\x1B[64;  \x05\x1B[65;  \x05\x1B[66;  \x05\
    \x1B[67;  \x05\x1B[68;  \x05\x1B[69;  \x05\x1B[70;  \x05\x1B[71;  \x05\x1B[72;  \x05\
    \x1B[73;  \x05\x1B[74;  \x05\x1B[75;  \x05\x1B[76;  \x05\x1B[77;  \x05\x1B[78;  \x05\
    \x1B[79;  \x05\x1B[80;  \x05\x1B[81;  \x05\x1B[82;  \x05\x1B[83;  \x05\x1B[84;  \x05\
    \x1B[85;  \x05\x1B[86;  \x05\x1B[87;  \x05\x1B[88;  \x05\x1B[89;  \x05\x1B[90;  \x05\
    \x1B[91;  \x05\x1B[92;  \x05\x1B[93;  \x05\x1B[94;  \x05\x1B[95;  \x05\x1B[96;  \x05\
    \x1B[97;  \x05\x1B[98;  \x05\x1B[99;  \x05\x1B[100; \x06\x1B[101; \x06\x1B[102; \x06\
    \x1B[103; \x06\x1B[104; \x06\x1B[105; \x06\x1B[106; \x06\x1B[107; \x06\x1B[108; \x06\
    \x1B[109; \x06\x1B[110; \x06\x1B[111; \x06\x1B[112; \x06\x1B[113; \x06\x1B[114; \x06\
    \x1B[115; \x06\x1B[116; \x06\x1B[117; \x06\x1B[118; \x06\x1B[119; \x06\x1B[120; \x06\
    \x1B[121; \x06\x1B[122; \x06\x1B[123; \x06\x1B[124; \x06\x1B[125; \x06\x1B[126; \x06\
    \x1B[127; \x06\x1B[128; \x06\x1B[129; \x06\x1B[130; \x06\x1B[131; \x06\x1B[132; \x06\
    \x1B[133; \x06\x1B[134; \x06\x1B[135; \x06\x1B[136; \x06\x1B[137; \x06\x1B[138; \x06\
    \x1B[139; \x06\x1B[140; \x06\x1B[141; \x06\x1B[142; \x06\x1B[143; \x06\x1B[144; \x06\
    \x1B[145; \x06\x1B[146; \x06\x1B[147; \x06\x1B[148; \x06\x1B[149; \x06\x1B[150; \x06\
    \x1B[151; \x06\x1B[152; \x06\x1B[153; \x06\x1B[154; \x06\x1B[155; \x06\x1B[156; \x06\
    \x1B[157; \x06\x1B[158; \x06\x1B[159; \x06\x1B[160; \x06\x1B[161; \x06\x1B[162; \x06\
    \x1B[163; \x06\x1B[164; \x06\x1B[165; \x06\x1B[166; \x06\x1B[167; \x06\x1B[168; \x06\
    \x1B[169; \x06\x1B[170; \x06\x1B[171; \x06\x1B[172; \x06\x1B[173; \x06\x1B[174; \x06\
    \x1B[175; \x06\x1B[176; \x06\x1B[177; \x06\x1B[178; \x06\x1B[179; \x06\x1B[180; \x06\
    \x1B[181; \x06\x1B[182; \x06\x1B[183; \x06\x1B[184; \x06\x1B[185; \x06\x1B[186; \x06\
    \x1B[187; \x06\x1B[188; \x06\x1B[189; \x06\x1B[190; \x06\x1B[191; \x06\x1B[192; \x06\
    \x1B[193; \x06\x1B[194; \x06\x1B[195; \x06\x1B[196; \x06\x1B[197; \x06\x1B[198; \x06\
    \x1B[199; \x06\x1B[200; \x06\x1B[201; \x06\x1B[202; \x06\x1B[203; \x06\x1B[204; \x06\
    \x1B[205; \x06\x1B[206; \x06\x1B[207; \x06\x1B[208; \x06\x1B[209; \x06\x1B[210; \x06\
    \x1B[211; \x06\x1B[212; \x06\x1B[213; \x06\x1B[214; \x06\x1B[215; \x06\x1B[216; \x06\
    \x1B[217; \x06\x1B[218; \x06\x1B[219; \x06\x1B[220; \x06\x1B[221; \x06\x1B[222; \x06\
    \x1B[223; \x06\x1B[224; \x06\x1B[225; \x06\x1B[226; \x06\x1B[227; \x06\x1B[228; \x06\
    \x1B[229; \x06\x1B[230; \x06\x1B[231; \x06\x1B[232; \x06\x1B[233; \x06\x1B[234; \x06\
    \x1B[235; \x06\x1B[236; \x06\x1B[237; \x06\x1B[238; \x06\x1B[239; \x06\x1B[240; \x06\
    \x1B[241; \x06\x1B[242; \x06\x1B[243; \x06\x1B[244; \x06\x1B[245; \x06\x1B[246; \x06\
    \x1B[247; \x06\x1B[248; \x06\x1B[249; \x06\x1B[250; \x06\x1B[251; \x06\x1B[252; \x06\
    \x1B[253; \x06\x1B[254; \x06\x1B[255; \x06";

/// The column of CUP and its final byte, and SGR up to its 0, for each column from 1 to 255. The last byte of an entry
/// is the length of this part.
const COLUMN_PARTS: [u8; 2040] =
    *b"1H\x1B[0  \x052H\x1B[0  \x053H\x1B[0  \x054H\x1B[0  \x055H\x1B[0  \x056H\x1B[0  \x05\
    7H\x1B[0  \x058H\x1B[0  \x059H\x1B[0  \x0510H\x1B[0 \x0611H\x1B[0 \x0612H\x1B[0 \x06\
    13H\x1B[0 \x0614H\x1B[0 \x0615H\x1B[0 \x0616H\x1B[0 \x0617H\x1B[0 \x0618H\x1B[0 \x06\
    19H\x1B[0 \x0620H\x1B[0 \x0621H\x1B[0 \x0622H\x1B[0 \x0623H\x1B[0 \x0624H\x1B[0 \x06\
    25H\x1B[0 \x0626H\x1B[0 \x0627H\x1B[0 \x0628H\x1B[0 \x0629H\x1B[0 \x0630H\x1B[0 \x06\
    31H\x1B[0 \x0632H\x1B[0 \x0633H\x1B[0 \x0634H\x1B[0 \x0635H\x1B[0 \x0636H\x1B[0 \x06\
    37H\x1B[0 \x0638H\x1B[0 \x0639H\x1B[0 \x0640H\x1B[0 \x0641H\x1B[0 \x0642H\x1B[0 \x06\
    43H\x1B[0 \x0644H\x1B[0 \x0645H\x1B[0 \x0646H\x1B[0 \x0647H\x1B[0 \x0648H\x1B[0 \x06\
    49H\x1B[0 \x0650H\x1B[0 \x0651H\x1B[0 \x0652H\x1B[0 \x0653H\x1B[0 \x0654H\x1B[0 \x06\
    55H\x1B[0 \x0656H\x1B[0 \x0657H\x1B[0 \x0658H\x1B[0 \x0659H\x1B[0 \x0660H\x1B[0 \x06\
    61H\x1B[0 \x0662H\x1B[0 \x0663H\x1B[0 \x0664H\x1B[0 \x0665H\x1B[0 \x0666H\x1B[0 \x06\
    67H\x1B[0 \x0668H\x1B[0 \x0669H\x1B[0 \x0670H\x1B[0 \x0671H\x1B[0 \x0672H\x1B[0 \x06\
    73H\x1B[0 \x0674H\x1B[0 \x0675H\x1B[0 \x0676H\x1B[0 \x0677H\x1B[0 \x0678H\x1B[0 \x06\
    79H\x1B[0 \x0680H\x1B[0 \x0681H\x1B[0 \x0682H\x1B[0 \x0683H\x1B[0 \x0684H\x1B[0 \x06\
    85H\x1B[0 \x0686H\x1B[0 \x0687H\x1B[0 \x0688H\x1B[0 \x0689H\x1B[0 \x0690H\x1B[0 \x06\
    91H\x1B[0 \x0692H\x1B[0 \x0693H\x1B[0 \x0694H\x1B[0 \x0695H\x1B[0 \x0696H\x1B[0 \x06\
    97H\x1B[0 \x0698H\x1B[0 \x0699H\x1B[0 \x06100H\x1B[0\x07101H\x1B[0\x07102H\x1B[0\x07\
    103H\x1B[0\x07104H\x1B[0\x07105H\x1B[0\x07106H\x1B[0\x07107H\x1B[0\x07108H\x1B[0\x07\
    109H\x1B[0\x07110H\x1B[0\x07111H\x1B[0\x07112H\x1B[0\x07113H\x1B[0\x07114H\x1B[0\x07\
    115H\x1B[0\x07116H\x1B[0\x07117H\x1B[0\x07118H\x1B[0\x07119H\x1B[0\x07120H\x1B[0\x07\
    121H\x1B[0\x07122H\x1B[0\x07123H\x1B[0\x07124H\x1B[0\x07125H\x1B[0\x07126H\x1B[0\x07\
    127H\x1B[0\x07128H\x1B[0\x07129H\x1B[0\x07130H\x1B[0\x07131H\x1B[0\x07132H\x1B[0\x07\
    133H\x1B[0\x07134H\x1B[0\x07135H\x1B[0\x07136H\x1B[0\x07137H\x1B[0\x07138H\x1B[0\x07\
    139H\x1B[0\x07140H\x1B[0\x07141H\x1B[0\x07142H\x1B[0\x07143H\x1B[0\x07144H\x1B[0\x07\
    145H\x1B[0\x07146H\x1B[0\x07147H\x1B[0\x07148H\x1B[0\x07149H\x1B[0\x07150H\x1B[0\x07\
    151H\x1B[0\x07152H\x1B[0\x07153H\x1B[0\x07154H\x1B[0\x07155H\x1B[0\x07156H\x1B[0\x07\
    157H\x1B[0\x07158H\x1B[0\x07159H\x1B[0\x07160H\x1B[0\x07161H\x1B[0\x07162H\x1B[0\x07\
    163H\x1B[0\x07164H\x1B[0\x07165H\x1B[0\x07166H\x1B[0\x07167H\x1B[0\x07168H\x1B[0\x07\
    169H\x1B[0\x07170H\x1B[0\x07171H\x1B[0\x07172H\x1B[0\x07173H\x1B[0\x07174H\x1B[0\x07\
    175H\x1B[0\x07176H\x1B[0\x07177H\x1B[0\x07178H\x1B[0\x07179H\x1B[0\x07180H\x1B[0\x07\
    181H\x1B[0\x07182H\x1B[0\x07183H\x1B[0\x07184H\x1B[0\x07185H\x1B[0\x07186H\x1B[0\x07\
    187H\x1B[0\x07188H\x1B[0\x07189H\x1B[0\x07190H\x1B[0\x07191H\x1B[0\x07192H\x1B[0\x07\
    193H\x1B[0\x07194H\x1B[0\x07195H\x1B[0\x07196H\x1B[0\x07197H\x1B[0\x07198H\x1B[0\x07\
    199H\x1B[0\x07200H\x1B[0\x07201H\x1B[0\x07202H\x1B[0\x07203H\x1B[0\x07204H\x1B[0\x07\
    205H\x1B[0\x07206H\x1B[0\x07207H\x1B[0\x07208H\x1B[0\x07209H\x1B[0\x07210H\x1B[0\x07\
    211H\x1B[0\x07212H\x1B[0\x07213H\x1B[0\x07214H\x1B[0\x07215H\x1B[0\x07216H\x1B[0\x07\
    217H\x1B[0\x07218H\x1B[0\x07219H\x1B[0\x07220H\x1B[0\x07221H\x1B[0\x07222H\x1B[0\x07\
    223H\x1B[0\x07224H\x1B[0\x07225H\x1B[0\x07226H\x1B[0\x07227H\x1B[0\x07228H\x1B[0\x07\
    229H\x1B[0\x07230H\x1B[0\x07231H\x1B[0\x07232H\x1B[0\x07233H\x1B[0\x07234H\x1B[0\x07\
    235H\x1B[0\x07236H\x1B[0\x07237H\x1B[0\x07238H\x1B[0\x07239H\x1B[0\x07240H\x1B[0\x07\
    241H\x1B[0\x07242H\x1B[0\x07243H\x1B[0\x07244H\x1B[0\x07245H\x1B[0\x07246H\x1B[0\x07\
    247H\x1B[0\x07248H\x1B[0\x07249H\x1B[0\x07250H\x1B[0\x07251H\x1B[0\x07252H\x1B[0\x07\
    253H\x1B[0\x07254H\x1B[0\x07255H\x1B[0\x07";

/// SGR after its 0, and DECSCA, for each brush: bold counts 1, underline 2, blink 4, reverse 8 and protection 16.
const BRUSHES: [u8; 512] =
    *b"m\x1B[0\"q          ;1m\x1B[0\"q        ;4m\x1B[0\"q        ;1;4m\x1B[0\"q      \
    ;5m\x1B[0\"q        ;1;5m\x1B[0\"q      ;4;5m\x1B[0\"q      ;1;4;5m\x1B[0\"q    \
    ;7m\x1B[0\"q        ;1;7m\x1B[0\"q      ;4;7m\x1B[0\"q      ;1;4;7m\x1B[0\"q    \
    ;5;7m\x1B[0\"q      ;1;5;7m\x1B[0\"q    ;4;5;7m\x1B[0\"q    ;1;4;5;7m\x1B[0\"q  \
    m\x1B[1\"q          ;1m\x1B[1\"q        ;4m\x1B[1\"q        ;1;4m\x1B[1\"q      \
    ;5m\x1B[1\"q        ;1;5m\x1B[1\"q      ;4;5m\x1B[1\"q      ;1;4;5m\x1B[1\"q    \
    ;7m\x1B[1\"q        ;1;7m\x1B[1\"q      ;4;7m\x1B[1\"q      ;1;4;7m\x1B[1\"q    \
    ;5;7m\x1B[1\"q      ;1;5;7m\x1B[1\"q    ;4;5;7m\x1B[1\"q    ;1;4;5;7m\x1B[1\"q  ";

/// The lengths of the entries of `BRUSHES`, without the spaces at their end.
const BRUSH_LENGTHS: [u8; 32] = [
    6, 8, 8, 10, 8, 10, 10, 12, 8, 10, 10, 12, 10, 12, 12, 14, 6, 8, 8, 10, 8, 10, 10, 12, 8, 10,
    10, 12, 10, 12, 12, 14,
];

/// Speed: the tab stops at power-up of the widest screen, so that those of a terminal are compared at once: index c - 1 for
/// column c.
pub(crate) const STOPS_AT_POWER_UP: [bool; MOST] = [
    false, false, false, false, false, false, false, false, true, false, false, false, false,
    false, false, false, true, false, false, false, false, false, false, false, true, false, false,
    false, false, false, false, false, true, false, false, false, false, false, false, false, true,
    false, false, false, false, false, false, false, true, false, false, false, false, false,
    false, false, true, false, false, false, false, false, false, false, true, false, false, false,
    false, false, false, false, true, false, false, false, false, false, false, false, true, false,
    false, false, false, false, false, false, true, false, false, false, false, false, false,
    false, true, false, false, false, false, false, false, false, true, false, false, false, false,
    false, false, false, true, false, false, false, false, false, false, false, true, false, false,
    false, false, false, false, false, true, false, false, false, false, false, false, false, true,
    false, false, false, false, false, false, false, true, false, false, false, false, false,
    false, false, true, false, false, false, false, false, false, false, true, false, false, false,
    false, false, false, false, true, false, false, false, false, false, false, false, true, false,
    false, false, false, false, false, false, true, false, false, false, false, false, false,
    false, true, false, false, false, false, false, false, false, true, false, false, false, false,
    false, false, false, true, false, false, false, false, false, false, false, true, false, false,
    false, false, false, false, false, true, false, false, false, false, false, false, false, true,
    false, false, false, false, false, false, false, true, false, false, false, false, false,
    false, false, true, false, false, false, false, false, false,
];

/// Returns CUP up to the column, and its length.
#[tactic(auto, using(crate::proofs::Entries::row_at, crate::proofs::Entries::row_length_at))]
#[inline(always)]
pub(crate) fn row_part(row: usize) -> (&'static [u8], usize)
    requires { (1 ≤ row) × (row ≤ MOST) }
    ensures value { take result.1 result.0.now ≡ row_part row }
    ensures filled { length result.0.now ≡ 8 }
    ensures short { result.1 ≤ 3 + row_digits row }
    ensures few { result.1 ≤ 6 }
{
    let from = ROW_LEN * (row - 1);
    let len = ROW_PARTS[from + ROW_LEN - 1] as usize;
    (&ROW_PARTS[from..from + ROW_LEN], len)
}

/// Returns the column of CUP and its final byte, and SGR up to its 0, and their length.
#[tactic(auto, using(crate::proofs::Entries::column_at, crate::proofs::Entries::length_at))]
#[inline(always)]
pub(crate) fn column_part(col: usize) -> (&'static [u8], usize)
    requires { (1 ≤ col) × (col ≤ MOST) }
    ensures value { take result.1 result.0.now ≡ column_part col }
    ensures filled { length result.0.now ≡ 8 }
    ensures short { result.1 ≤ 7 }
{
    let from = COLUMN_LEN * (col - 1);
    let len = COLUMN_PARTS[from + COLUMN_LEN - 1] as usize;
    (&COLUMN_PARTS[from..from + COLUMN_LEN], len)
}

/// Returns the number of the brush that writes a cell.
#[inline(always)]
pub(crate) fn cell_brush_number(cell: &Cell) -> u64
    ensures value { result ≡ brush_number (brush_of cell.now) }
    ensures small { result < 2 ^ 40 }
{
    cell.word() >> 24
}

/// Returns the index in its table of the brush of a number.
#[inline(always)]
fn index_of(number: u64) -> usize
    ensures value { (brush : Brush) → number ≡ brush_number brush → result ≡ brush_index brush }
    ensures below { result < 32 }
{
    // Each byte of the number becomes a separate bit, starting at bit 32.
    (number.wrapping_mul(0x01_0204_0810) >> 32 & 0x1F) as usize
}

/// Returns SGR after its 0, and DECSCA, of the brush of a number, and their length.
#[tactic(auto, using(crate::proofs::Entries::brush_at))]
#[inline(always)]
pub(crate) fn brush_part(number: u64) -> (&'static [u8], usize)
    ensures value { (brush : Brush) → number ≡ brush_number brush → take result.1 result.0.now ≡ brush_part brush }
    ensures filled { length result.0.now ≡ 16 }
    ensures short { result.1 ≤ 14 }
{
    let index = index_of(number);
    let from = BRUSH_LEN * index;
    (
        &BRUSHES[from..from + BRUSH_LEN],
        BRUSH_LENGTHS[index] as usize,
    )
}
