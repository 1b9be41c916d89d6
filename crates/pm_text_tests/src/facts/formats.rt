//! Which format a voltage has: that of the last plain VOUT_MODE, a relative one, one of a list by address, none where the
//! output isn't known, and DIRECT by its side.

/// Captures, as `are_told` reads them.
pub(super) static FORMATS: &str = r#"
$ 0 pmb decode --values
B0 20 / B1 17 E4 -> 58 VOUT_MODE read 17 ULINEAR16 -9
B0 8B / B1 66 02 7E -> 58 READ_VOUT read 0266 1.199218 V
B2 8B / B3 66 02 6C -> 59 READ_VOUT read 0266
B0 20 / B1 14 ED -> 58 VOUT_MODE read 14 ULINEAR16 -12
B0 21 00 10 C0 -> 58 VOUT_COMMAND write 1000 1 V
B0 20 17 21 -> 58 write F7 WrongDirection 1 bytes B0 20 17 21
B0 21 00 10 C0 -> 58 VOUT_COMMAND write 1000
B0 20 / B1 17 E4 -> 58 VOUT_MODE read 17 ULINEAR16 -9
B0 21 00 10 C0 -> 58 VOUT_COMMAND write 1000 8 V
B0 16 2D -> 58 RESTORE_USER_ALL send
B0 21 00 10 C0 -> 58 VOUT_COMMAND write 1000
B0 20 / B1 17 E4 -> 58 VOUT_MODE read 17 ULINEAR16 -9
B2 00 01 3B -> 59 PAGE write 01
B0 21 00 10 C0 -> 58 VOUT_COMMAND write 1000 8 V
B0 00 4E -> 58 write F2 Short 3 bytes B0 00 4E
B0 21 00 10 C0 -> 58 VOUT_COMMAND write 1000
B0 20 / B1 17 E4 -> 58 VOUT_MODE read 17 ULINEAR16 -9
B0 21 00 10 C0 -> 58 VOUT_COMMAND write 1000
B4 20 / B5 17 E8 -> 5A VOUT_MODE read 17 ULINEAR16 -9
B4 05 02 00 03 DF -> 5A page 0 CLEAR_FAULTS send
B4 21 00 10 98 -> 5A VOUT_COMMAND write 1000
B6 20 / B7 17 EE -> 5B VOUT_MODE read 17 ULINEAR16 -9
B6 06 02 00 78 / B7 01 00 79 -> 5B page 0 STATUS_BYTE read 00 none
B6 21 00 10 B4 -> 5B VOUT_COMMAND write 1000
count VOUT_MODE 7, READ_VOUT 2, VOUT_COMMAND 9, RESTORE_USER_ALL 1, PAGE 1, CLEAR_FAULTS 1
count STATUS_BYTE 1
lines 24 accepted 22 faults 2 bad 0
? line 13 writes PAGE: --pages shows which output each packet reaches
$ 0 pmb decode --values --pages
B0 20 / B1 97 6D -> 58 VOUT_MODE read 97 ULINEAR16 -9 relative
B0 21 00 02 BE -> 58 VOUT_COMMAND write 0200 1 V
B0 24 00 02 7E -> 58 VOUT_MAX write 0200 1 V
B0 25 00 02 15 -> 58 VOUT_MARGIN_HIGH write 0200
B0 26 00 02 A8 -> 58 VOUT_MARGIN_LOW write 0200
B0 2B 00 02 39 -> 58 VOUT_MIN write 0200 1 V
B0 8B / B1 00 02 F5 -> 58 READ_VOUT read 0200 1 V
B2 00 01 3B -> 59 PAGE write 01
B2 20 / B3 8F 23 -> 59 page 1? VOUT_MODE read 8F ULINEAR16 15 relative
B2 21 02 00 B6 -> 59 page 1? VOUT_COMMAND write 0002 65536 V
B2 25 02 00 1D -> 59 page 1? VOUT_MARGIN_HIGH write 0002
B2 20 / B3 B7 8B -> 59 page 1? VOUT_MODE read B7
B2 21 02 00 B6 -> 59 page 1? VOUT_COMMAND write 0002
B2 20 / B3 7F FD -> 59 page 1? VOUT_MODE read 7F half
B2 21 02 00 B6 -> 59 page 1? VOUT_COMMAND write 0002
count VOUT_MODE 4, VOUT_COMMAND 4, VOUT_MAX 1, VOUT_MARGIN_HIGH 2, VOUT_MARGIN_LOW 1, VOUT_MIN 1
count READ_VOUT 1, PAGE 1
lines 15 accepted 15 faults 0 bad 0
$ 0 pmb decode --values --vout=ulinear16:-12
B0 06 02 00 20 / B1 01 97 CE -> 58 page 0 VOUT_MODE read 97 ULINEAR16 -9 relative
B0 05 04 00 21 00 10 A2 -> 58 page 0 VOUT_COMMAND write 1000 8 V
B0 05 04 00 25 00 10 09 -> 58 page 0 VOUT_MARGIN_HIGH write 1000
count VOUT_MODE 1, VOUT_COMMAND 1, VOUT_MARGIN_HIGH 1
lines 3 accepted 3 faults 0 bad 0
$ 0 pmb decode --values --vout=58:ulinear16:-12,5a/direct/1/0/3,ulinear16:-9,59:linear11
B0 21 00 10 C0 -> 58 VOUT_COMMAND write 1000 1 V
B2 21 00 10 EC -> 59 VOUT_COMMAND write 1000 8 V
B4 21 00 10 98 -> 5A VOUT_COMMAND write 1000 4.096 V
B0 05 04 07 21 00 10 C0 -> 58 page 7 VOUT_COMMAND write 1000 1 V
count VOUT_COMMAND 4
lines 4 accepted 4 faults 0 bad 0
$ 0 pmb decode --values --vout=59:ulinear16:-12
B0 21 00 10 C0 -> 58 VOUT_COMMAND write 1000
B2 21 00 10 EC -> 59 VOUT_COMMAND write 1000 1 V
count VOUT_COMMAND 2
lines 2 accepted 2 faults 0 bad 0
$ 0 pmb decode --values --vout=ulinear16:-9
B0 06 02 00 20 / B1 01 13 5B -> 58 page 0 VOUT_MODE read 13 ULINEAR16 -13
B0 21 00 20 50 -> 58 VOUT_COMMAND write 2000
B0 05 04 FF 21 00 20 E3 -> 58 page 255 VOUT_COMMAND write 2000
B0 06 02 01 20 / B1 01 13 39 -> 58 page 1 VOUT_MODE read 13 ULINEAR16 -13
B0 21 00 20 50 -> 58 VOUT_COMMAND write 2000
B0 05 04 02 21 00 20 1E -> 58 page 2 VOUT_COMMAND write 2000 16 V
B2 21 00 20 7C -> 59 VOUT_COMMAND write 2000 16 V
B0 06 02 01 20 / B1 01 14 2C -> 58 page 1 VOUT_MODE read 14 ULINEAR16 -12
B0 21 00 20 50 -> 58 VOUT_COMMAND write 2000
B0 05 04 FF 21 00 20 E3 -> 58 page 255 VOUT_COMMAND write 2000
B0 06 02 00 20 / B1 01 14 4E -> 58 page 0 VOUT_MODE read 14 ULINEAR16 -12
B0 21 00 20 50 -> 58 VOUT_COMMAND write 2000
B0 05 03 01 20 17 3E -> 58 write F7 WrongDirection 4 bytes B0 05 03 01 20 17 3E
B0 21 00 20 50 -> 58 VOUT_COMMAND write 2000
B0 06 02 01 20 / B1 01 14 2C -> 58 page 1 VOUT_MODE read 14 ULINEAR16 -12
B0 21 00 20 50 -> 58 VOUT_COMMAND write 2000
B0 06 02 FF 20 / B1 01 17 7E -> 58 page 255 VOUT_MODE read 17 ULINEAR16 -9
B0 05 04 FF 21 00 20 E3 -> 58 page 255 VOUT_COMMAND write 2000
B0 21 00 20 50 -> 58 VOUT_COMMAND write 2000
count VOUT_MODE 6, VOUT_COMMAND 12
lines 19 accepted 18 faults 1 bad 0
$ 0 pmb decode --values
B0 20 / B1 40 46 -> 58 VOUT_MODE read 40 DIRECT
B0 21 E8 03 52 -> 58 VOUT_COMMAND write 03E8
B0 30 02 21 01 / B1 05 02 00 00 00 03 DE -> 58 COEFFICIENTS of 21 side 1 read m 2 b 0 r 3
B0 21 E8 03 52 -> 58 VOUT_COMMAND write 03E8 0.5 V
B0 30 02 21 00 / B1 05 01 00 00 00 03 6B -> 58 COEFFICIENTS of 21 side 0 read m 1 b 0 r 3
B0 21 E8 03 52 -> 58 VOUT_COMMAND write 03E8 1 V
B0 21 / B1 E8 03 7A -> 58 VOUT_COMMAND read 03E8 0.5 V
B0 30 02 21 02 / B1 05 05 00 00 00 03 C2 -> 58 COEFFICIENTS of 21 side 2 read m 5 b 0 r 3
B0 21 E8 03 52 -> 58 VOUT_COMMAND write 03E8 1 V
B0 30 02 24 02 / B1 05 05 00 00 00 03 58 -> 58 COEFFICIENTS of 24 side 2 read m 5 b 0 r 3
B0 24 E8 03 92 -> 58 VOUT_MAX write 03E8
B0 30 02 8B 00 / B1 05 01 00 00 00 03 61 -> 58 COEFFICIENTS of 8B side 0 read m 1 b 0 r 3
B0 8B / B1 E8 03 19 -> 58 READ_VOUT read 03E8 1 V
count VOUT_MODE 1, VOUT_COMMAND 5, COEFFICIENTS 5, VOUT_MAX 1, READ_VOUT 1
lines 13 accepted 13 faults 0 bad 0
"#;
