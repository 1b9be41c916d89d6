//! What is shown of lines: faults, codes that the command table doesn't have, times, and the keys and places of JSON.

/// Captures, as `are_told` reads them.
pub(super) static LINES: &str = r#"
$ 1 pmb decode
B0 05 04 01 21 CD 34 5A -> 58 write F5 WrongPec 7
B0 06 02 00 21 / B1 02 CD -> 58 read F2 Short 3
B0 06 02 00 21 / B1 02 CD 34 B9 00 -> 58 read F3 Long 5
B0 06 02 00 21 / B1 03 CD 34 D2 -> 58 read F4 WrongCount 1
b0 21 / b2 CD -> 58 read F1 NotOurs
B0 96 / B1 34 12 B1 -> 58 write F6 UnknownCode 1
B0 78 20 00 -> 58 write F7 WrongDirection 1
B0 05 02 00 06 4B -> 58 write F8 Nested 4
B0 21 CD -> 58 write F2 Short 3
B0 -> 58 write F2 Short 1
B0 / B1 -> 58 write F2 Short 1
B0 20 / -> 58 read F1 NotOurs
0E 05 -> -- write F1 NotOurs
B1 -> -- write F1 NotOurs
/ -> -- write F1 NotOurs
/ B1 05 -> -- write F1 NotOurs
B0 9 -> X2 BadHex
B0 / B1 / B2 -> X1 Syntax
lines 18 accepted 0 faults 16 bad 2
$ 1 pmb decode --values
B0 05 04 01 21 CD 34 5A -> 58 write F5 WrongPec 7 bytes B0 05 04 01 21 CD 34 5A
B0 06 02 00 21 / B1 02 CD -> 58 read F2 Short 3 bytes B0 06 02 00 21 / B1 02 CD
B0 06 02 00 21 / B1 02 CD 34 B9 00 -> 58 read F3 Long 5 bytes B0 06 02 00 21 / B1 02 CD 34 B9 00
B0 06 02 00 21 / B1 03 CD 34 D2 -> 58 read F4 WrongCount 1 bytes B0 06 02 00 21 / B1 03 CD 34 D2
b0 21 / b2 CD -> 58 read F1 NotOurs bytes B0 21 / B2 CD
B0 96 / B1 34 12 B1 -> 58 write F6 UnknownCode 1 bytes B0 96 / B1 34 12 B1
B0 78 20 00 -> 58 write F7 WrongDirection 1 bytes B0 78 20 00
B0 05 02 00 06 4B -> 58 write F8 Nested 4 bytes B0 05 02 00 06 4B
B0 21 CD -> 58 write F2 Short 3 bytes B0 21 CD
B0 -> 58 write F2 Short 1 bytes B0
B0 / B1 -> 58 write F2 Short 1 bytes B0 / B1
B0 20 / -> 58 read F1 NotOurs bytes B0 20 /
0E 05 -> -- write F1 NotOurs bytes 0E 05
B1 -> -- write F1 NotOurs bytes B1
/ -> -- write F1 NotOurs bytes /
/ B1 05 -> -- write F1 NotOurs bytes / B1 05
B0 9 -> X2 BadHex
B0 / B1 / B2 -> X1 Syntax
lines 18 accepted 0 faults 16 bad 2
? no line is a good packet: where lines begin with times, give --times
$ 0 pmb decode --all
* B0 96 / @ -> 58 code 96 READ_POUT @
B1 34 12 B1 = read 34 12, PEC right; B1 34 12 B0 = read 34 12 B0, no PEC
B1 34 12 = read 34 12, no PEC; B1 = read, no PEC; B1 6B = read 6B, no PEC
B0 86 02 01 02 / B1 03 04 1E -> 58 code 86 READ_EIN write 02 01 02 read 03 04, PEC right
B0 86 02 01 02 / B1 -> 58 code 86 READ_EIN write 02 01 02 read, no PEC
B0 D4 01 02 03 -> 58 code D4 write 01 02 03, no PEC
B0 D4 01 02 03 1C -> 58 code D4 write 01 02 03, PEC right
B0 D4 -> 58 code D4 send, no PEC
B0 D4 6D -> 58 code D4 send, PEC right
B0 05 03 00 21 CD 48 -> 58 page 0 code 21 VOUT_COMMAND write CD, PEC right
B0 05 03 00 D4 07 65 -> 58 page 0 code D4 write 07, PEC right
B0 05 02 07 D4 10 -> 58 page 7 code D4 send, PEC right
B0 05 02 FF 0B -> 58 page 255 code 0B send, no PEC
B0 05 04 00 D4 07 07 -> 58 code 05 PAGE_PLUS_WRITE write 04 00 D4 07, PEC right
B0 05 01 00 -> 58 code 05 PAGE_PLUS_WRITE write 01 00, no PEC
B0 06 02 00 EF / B1 01 60 7D -> 58 page 0 code EF read 60, PEC right
B0 06 02 01 EF / B1 02 60 07 -> 58 page 1 code EF read 60 07, no PEC
B0 06 02 01 EF / B1 00 -> 58 page 1 code EF read, no PEC
B0 06 02 01 EF / B1 02 60 -> 58 code 06 PAGE_PLUS_READ write 02 01 EF read 02 60, no PEC
B0 06 03 01 EF / B1 01 60 -> 58 code 06 PAGE_PLUS_READ write 03 01 EF read 01 60, no PEC
B0 06 02 01 EF 00 / B1 01 60 -> 58 code 06 PAGE_PLUS_READ write 02 01 EF 00 read 01 60, no PEC
B0 06 02 01 / B1 01 60 -> 58 code 06 PAGE_PLUS_READ write 02 01 read 01 60, no PEC
B0 06 02 01 EF / B1 -> 58 code 06 PAGE_PLUS_READ write 02 01 EF read, no PEC
B0 05 02 00 06 4B -> 58 page 0 code 06 PAGE_PLUS_READ send, PEC right
B0 21 CD 34 38 01 -> 58 code 21 VOUT_COMMAND write CD 34 38 01, no PEC
B0 21 CD -> 58 code 21 VOUT_COMMAND write CD, no PEC
B0 21 CD 34 38 -> 58 VOUT_COMMAND write 34CD
B0 78 20 00 -> 58 code 78 STATUS_BYTE write 20, PEC right
B0 20 14 -> 58 code 20 VOUT_MODE write 14, no PEC
B0 20 14 28 -> 58 code 20 VOUT_MODE write 14, PEC right
B0 79 00 08 -> 58 code 79 STATUS_WORD write 00 08, no PEC
B0 8B CD 34 -> 58 code 8B READ_VOUT write CD 34, no PEC
B0 03 / B1 05 -> 58 code 03 CLEAR_FAULTS read 05, no PEC
EE D4 -> 77 code D4 send, no PEC
12 D4 -> 09 code D4 send, no PEC
count VOUT_COMMAND 1, code 03 1, code 05 2, code 06 6, code 0B 1, code 20 2, code 21 3, code 78 1
count code 79 1, code 86 2, code 8B 1, code 96 5, code D4 8, code EF 3
lines 37 accepted 1 other 36 faults 0 bad 0
$ 0 pmb decode --all
B0 7B / B1 C1 -> 58 code 7B STATUS_IOUT read C1, no PEC
B0 7B / B1 80 C0 -> 58 code 7B STATUS_IOUT read 80, PEC right
B0 7B 29 -> 58 code 7B STATUS_IOUT write 29, no PEC
B0 7B 80 56 -> 58 code 7B STATUS_IOUT write 80, PEC right
B0 82 / B1 68 -> 58 code 82 STATUS_FANS_3_4 read 68, no PEC
B0 83 / B1 55 D8 -> 58 code 83 READ_KWH_IN read 55, PEC right
B0 02 41 -> 58 code 02 ON_OFF_CONFIG write 41, no PEC
B0 02 / B1 DE -> 58 code 02 ON_OFF_CONFIG read DE, no PEC
B0 96 / B1 34 9A -> 58 code 96 READ_POUT read 34 9A, no PEC
B0 97 / B1 55 D1 -> 58 code 97 READ_PIN read 55 D1, no PEC
B0 D4 / B1 1A -> 58 code D4 read 1A, no PEC
B0 D4 / B1 12 38 -> 58 code D4 read 12, PEC right
B0 11 38 -> 58 code 11 STORE_DEFAULT_ALL send, PEC right
count code 02 2, code 11 1, code 7B 4, code 82 1, code 83 1, code 96 1, code 97 1, code D4 2
lines 13 accepted 0 other 13 faults 0 bad 0
$ 0 pmb decode --all
B0 03 47 -> 58 write F5 WrongPec 2
B0 21 CD 34 39 -> 58 write F5 WrongPec 4
B0 05 04 00 D4 CD 34 F7 -> 58 write F5 WrongPec 7
B0 78 / B1 42 3C -> 58 read F5 WrongPec 2
B0 06 02 00 21 / B1 02 CD 34 B8 -> 58 read F5 WrongPec 4
B0 -> 58 write F2 Short 1
B0 / B1 00 -> 58 write F2 Short 1
B0 96 / B3 34 12 -> 58 write F6 UnknownCode 1
B0 96 / -> 58 write F6 UnknownCode 1
B0 96 / B0 00 -> 58 write F6 UnknownCode 1
B0 21 / B3 CD -> 58 read F1 NotOurs
0E D4 -> -- write F1 NotOurs
F0 D4 -> -- write F1 NotOurs
lines 13 accepted 0 other 0 faults 13 bad 0
$ 0 pmb decode --all
B0 21 CD 34 -> 58 VOUT_COMMAND write 34CD, no PEC
B0 03 -> 58 CLEAR_FAULTS send, no PEC
B0 01 94 -> 58 OPERATION write 94, no PEC
B0 88 / B1 00 D3 -> 58 READ_VIN read D300, no PEC
B0 78 / B1 42 -> 58 STATUS_BYTE read 42, no PEC
B0 05 04 01 21 CD 34 -> 58 page 1 VOUT_COMMAND write 34CD, no PEC
B0 05 02 01 03 -> 58 page 1 CLEAR_FAULTS send, no PEC
B0 06 02 00 21 / B1 02 CD 34 -> 58 page 0 VOUT_COMMAND read 34CD, no PEC
B0 30 02 21 00 / B1 05 01 00 00 00 03 -> 58 COEFFICIENTS of 21 side 0 read m 1 b 0 r 3, no PEC
B0 8B / B1 FF FF -> 58 READ_VOUT read FFFF, all ones: nobody answered?
B0 8B / B1 FF FF FF -> 58 code 8B READ_VOUT read FF FF FF, all ones: nobody answered?
B0 7A / B1 FF -> 58 STATUS_VOUT read FF, all ones: nobody answered?
B0 06 02 00 21 / B1 FF FF FF FF -> 58 code 06 PAGE_PLUS_READ write 02 00 21 read FF FF FF FF, all ones: nobody answered?
B0 D4 / B1 FF FF FF FF FF -> 58 code D4 read FF FF FF FF FF, all ones: nobody answered?
B0 D4 / B1 FF FE -> 58 code D4 read FF FE, no PEC
B0 D4 / B1 -> 58 code D4 read, no PEC
B0 D4 FF FF -> 58 code D4 write FF FF, no PEC
B0 8B / B1 FF FF DF -> 58 READ_VOUT read FFFF
B0 8B / B1 FF FF -> 58 READ_VOUT read FFFF, all ones: nobody answered?
B0 24 FF FF -> 58 VOUT_MAX write FFFF, no PEC
B0 24 / B1 FF FF -> 58 VOUT_MAX read FFFF, no PEC
B0 24 / B1 FF -> 58 code 24 VOUT_MAX read FF, no PEC
B0 24 FF FE -> 58 VOUT_MAX write FEFF, no PEC
B0 24 / B1 FF FF -> 58 VOUT_MAX read FFFF, all ones: nobody answered?
count VOUT_COMMAND 3, CLEAR_FAULTS 2, OPERATION 1, READ_VIN 1, STATUS_BYTE 1, COEFFICIENTS 1
count READ_VOUT 3, STATUS_VOUT 1, VOUT_MAX 4, code 06 1, code 24 1, code 8B 1, code D4 4
lines 24 accepted 17 other 7 faults 0 bad 0
$ 0 pmb decode --all --values
B0 88 / B1 00 D3 -> 58 READ_VIN read D300, no PEC
B0 20 / B1 17 -> 58 VOUT_MODE read 17 ULINEAR16 -9, no PEC
B0 88 / B1 00 D3 -> 58 READ_VIN read D300 12 V?, no PEC
B0 8C / B1 FB FF -> 58 READ_IOUT read FFFB -2.5 A?, no PEC
B2 88 / B3 00 D3 -> 59 READ_VIN read D300, no PEC
B0 79 / B1 02 20 -> 58 STATUS_WORD read 2002 INPUT, CML, no PEC
B0 06 02 01 20 / B1 01 14 -> 58 page 1 VOUT_MODE read 14 ULINEAR16 -12, no PEC
B0 06 02 01 8B / B1 02 CD 34 -> 58 page 1 READ_VOUT read 34CD 3.300048 V, no PEC
B0 8B / B1 CD 34 -> 58 READ_VOUT read 34CD, no PEC
B0 79 00 08 -> 58 code 79 STATUS_WORD write 00 08, no PEC
B0 88 / B1 FF FF -> 58 READ_VIN read FFFF -0.5 V?, all ones: nobody answered?
B0 03 47 -> 58 write F5 WrongPec 2 bytes B0 03 47
count READ_VIN 4, VOUT_MODE 2, READ_IOUT 1, STATUS_WORD 1, READ_VOUT 2, code 79 1
lines 12 accepted 10 other 1 faults 1 bad 0
$ 0 pmb decode --all
B6 0B -> 5B code 0B send, no PEC
B0 D4 6D -> 58 code D4 send, PEC right
B0 21 CD 34 38 -> 58 VOUT_COMMAND write 34CD
count VOUT_COMMAND 1, code 0B 1, code D4 1
lines 3 accepted 1 other 2 faults 0 bad 0
$ 0 pmb decode --all
B0 02 -> 58 code 02 ON_OFF_CONFIG send, no PEC
B0 FF -> 58 code FF PMBUS_COMMAND_EXT send, no PEC
B0 FF / B1 FF -> 58 code FF PMBUS_COMMAND_EXT read FF, all ones: nobody answered?
count code 02 1, code FF 2
lines 3 accepted 0 other 3 faults 0 bad 0
$ 1 pmb decode --all
B0 03 46 -> 58 CLEAR_FAULTS send
B0 9 -> X2 BadHex
count CLEAR_FAULTS 1
lines 2 accepted 1 other 0 faults 0 bad 1
$ 0 pmb decode --all --pages
B0 00 01 ED -> 58 PAGE write 01
B0 21 CD 34 38 -> 58 page 1? VOUT_COMMAND write 34CD
B0 D4 / B1 05 -> 58 page 1? code D4 read 05, no PEC
B0 21 CD 34 38 -> 58 page 1? VOUT_COMMAND write 34CD
B0 D4 / B1 -> 58 code D4 read, no PEC
B0 21 CD 34 38 -> 58 VOUT_COMMAND write 34CD
count PAGE 1, VOUT_COMMAND 3, code D4 2
lines 6 accepted 4 other 2 faults 0 bad 0
$ 1 pmb decode --times
1234 B0 03 46 -> 0 us 58 CLEAR_FAULTS send
0 B0 03 46 -> -1234 us 58 CLEAR_FAULTS send
007 B00346 -> -1227 us 58 CLEAR_FAULTS send
999999999999999999 B0 03 46 -> 999999999999998765 us 58 CLEAR_FAULTS send
000000000000000001 B0 03 46 -> -1233 us 58 CLEAR_FAULTS send
0000000000000000001 B0 03 46 -> X1 Syntax
1000000000000000000 B0 03 46 -> X1 Syntax
1 B0 20 / B1 14 ED -> -1233 us 58 VOUT_MODE read 14
1 -> -1233 us -- write F1 NotOurs
1 / -> -1233 us -- write F1 NotOurs
1/ B0 -> X1 Syntax
B0 03 46 -> X1 Syntax
03 46 -> -1231 us 23 write F2 Short 1
-1 B0 03 46 -> X1 Syntax
+1 B0 03 46 -> X1 Syntax
1.5 B0 03 46 -> X1 Syntax
B0 9 -> X1 Syntax
x zz -> X1 Syntax
5 B0 9 -> X2 BadHex
5 # B0 -> X2 BadHex
5 B0 / B1 / B2 -> X1 Syntax
5 x -> X2 BadHex
count CLEAR_FAULTS 5, VOUT_MODE 1
lines 22 accepted 6 faults 3 bad 13
$ 1 pmb decode --json
B0 05 04 00 21 CD 34 5A -> {"line":1,"address":"58","page":0,"code":"21","name":"VOUT_COMMAND","direction":"write","payload":"CD 34"}
B0 06 02 01 21 / B1 02 CD 34 90 -> {"line":2,"address":"58","page":1,"code":"21","name":"VOUT_COMMAND","direction":"read","payload":"CD 34"}
B0 03 46 -> {"line":3,"address":"58","code":"03","name":"CLEAR_FAULTS","direction":"send"}
B0 30 02 21 00 / B1 05 01 00 00 00 03 6B -> {"line":4,"address":"58","code":"30","name":"COEFFICIENTS","of":"21","side":0,"direction":"read","payload":"01 00 00 00 03","m":1,"b":0,"r":3}
B0 05 04 01 21 CD 34 5A -> {"line":5,"address":"58","code":"05","direction":"write","fault":"F5 WrongPec","place":7}
B0 21 / B3 -> {"line":6,"address":"58","code":"21","direction":"read","fault":"F1 NotOurs"}
/ -> {"line":7,"direction":"write","fault":"F1 NotOurs"}
B0 9 -> {"line":8,"fault":"X2 BadHex"}
B0 / B1 / B2 -> {"line":9,"fault":"X1 Syntax"}
B0 96 / B1 34 12 -> {"line":10,"address":"58","code":"96","direction":"write","fault":"F6 UnknownCode","place":1}
{"count":"VOUT_COMMAND","lines":2}
{"count":"CLEAR_FAULTS","lines":1}
{"count":"COEFFICIENTS","lines":1}
{"lines":10,"accepted":4,"faults":4,"bad":2}
$ 0 pmb decode --json --values
B0 06 02 00 20 / B1 01 14 4E -> {"line":1,"address":"58","page":0,"code":"20","name":"VOUT_MODE","direction":"read","payload":"14","value":"ULINEAR16 -12"}
B0 05 04 00 21 CD 34 5A -> {"line":2,"address":"58","page":0,"code":"21","name":"VOUT_COMMAND","direction":"write","payload":"CD 34","numerator":13517,"denominator":4096,"volts":3.300048}
B0 88 / B1 00 D3 F6 -> {"line":3,"address":"58","code":"88","name":"READ_VIN","direction":"read","payload":"00 D3","numerator":768,"denominator":64,"volts":12,"assumed":true}
B0 8C / B1 FB FF E9 -> {"line":4,"address":"58","code":"8C","name":"READ_IOUT","direction":"read","payload":"FB FF","numerator":-5,"denominator":2,"amperes":-2.5,"assumed":true}
B0 8D / B1 19 00 65 -> {"line":5,"address":"58","code":"8D","name":"READ_TEMPERATURE_1","direction":"read","payload":"19 00","numerator":25,"denominator":1,"celsius":25,"assumed":true}
B0 01 94 1A -> {"line":6,"address":"58","code":"01","name":"OPERATION","direction":"write","payload":"94","value":"on, margin low"}
B0 01 FF 0C -> {"line":7,"address":"58","code":"01","name":"OPERATION","direction":"write","payload":"FF"}
B0 10 80 34 -> {"line":8,"address":"58","code":"10","name":"WRITE_PROTECT","direction":"write","payload":"80","value":"writes of WRITE_PROTECT"}
B0 78 / B1 42 3D -> {"line":9,"address":"58","code":"78","name":"STATUS_BYTE","direction":"read","payload":"42","flags":["OFF","CML"]}
B0 79 / B1 00 00 D4 -> {"line":10,"address":"58","code":"79","name":"STATUS_WORD","direction":"read","payload":"00 00","flags":[]}
B0 7E / B1 04 95 -> {"line":11,"address":"58","code":"7E","name":"STATUS_CML","direction":"read","payload":"04","flags":["bit 2"]}
B0 05 04 01 21 CD 34 5A -> {"line":12,"address":"58","code":"05","direction":"write","packet":"B0 05 04 01 21 CD 34 5A","fault":"F5 WrongPec","place":7}
B0 06 02 00 21 / B1 02 CD -> {"line":13,"address":"58","code":"06","direction":"read","packet":"B0 06 02 00 21 / B1 02 CD","fault":"F2 Short","place":3}
B0 21 CD 34 38 -> {"line":14,"address":"58","code":"21","name":"VOUT_COMMAND","direction":"write","payload":"CD 34"}
B0 -> {"line":15,"address":"58","direction":"write","packet":"B0","fault":"F2 Short","place":1}
B0 / B1 -> {"line":16,"address":"58","direction":"write","packet":"B0 / B1","fault":"F2 Short","place":1}
B0 20 / -> {"line":17,"address":"58","code":"20","direction":"read","packet":"B0 20 /","fault":"F1 NotOurs"}
{"count":"VOUT_MODE","lines":1}
{"count":"VOUT_COMMAND","lines":2}
{"count":"READ_VIN","lines":1}
{"count":"READ_IOUT","lines":1}
{"count":"READ_TEMPERATURE_1","lines":1}
{"count":"OPERATION","lines":2}
{"count":"WRITE_PROTECT","lines":1}
{"count":"STATUS_BYTE","lines":1}
{"count":"STATUS_WORD","lines":1}
{"count":"STATUS_CML","lines":1}
{"lines":17,"accepted":12,"faults":5,"bad":0}
$ 0 pmb decode --all --json
B0 96 / B1 34 12 B1 -> {"line":1,"address":"58","code":"96","name":"READ_POUT","direction":"read","payload":"34 12","pec":true}
B0 86 02 01 02 / B1 03 04 -> {"line":2,"address":"58","code":"86","name":"READ_EIN","direction":"read","written":"02 01 02","payload":"03 04","pec":false}
B0 D4 -> {"line":3,"address":"58","code":"D4","direction":"send","pec":false}
B0 D4 01 03 -> {"line":4,"address":"58","code":"D4","direction":"write","payload":"01","pec":true}
B0 21 CD 34 -> {"line":5,"address":"58","code":"21","name":"VOUT_COMMAND","direction":"write","payload":"CD 34","pec":false}
B0 96 / B1 -> {"line":6,"address":"58","code":"96","name":"READ_POUT","direction":"read","pec":false}
B0 03 46 -> {"line":7,"address":"58","code":"03","name":"CLEAR_FAULTS","direction":"send"}
B0 02 -> {"line":8,"address":"58","code":"02","name":"ON_OFF_CONFIG","direction":"send","pec":false}
B0 FF -> {"line":9,"address":"58","code":"FF","name":"PMBUS_COMMAND_EXT","direction":"send","pec":false}
B0 06 02 00 EF / B1 01 60 7D -> {"line":10,"address":"58","page":0,"code":"EF","direction":"read","payload":"60","pec":true}
B0 05 02 FF D4 -> {"line":11,"address":"58","page":255,"code":"D4","direction":"send","pec":false}
B0 06 02 00 21 / B1 FF FF -> {"line":12,"address":"58","code":"06","name":"PAGE_PLUS_READ","direction":"read","written":"02 00 21","payload":"FF FF","pec":false,"answered":null}
B0 99 / B1 03 4C 54 43 -> {"line":13,"address":"58","code":"99","name":"MFR_ID","direction":"read","payload":"03 4C 54 43","pec":false}
B2 D4 / B3 FF -> {"line":14,"address":"59","code":"D4","direction":"read","payload":"FF","pec":false,"answered":null}
{"count":"VOUT_COMMAND","lines":1}
{"count":"CLEAR_FAULTS","lines":1}
{"code":"02","lines":1}
{"code":"06","lines":1}
{"code":"86","lines":1}
{"code":"96","lines":2}
{"code":"99","lines":1}
{"code":"D4","lines":4}
{"code":"EF","lines":1}
{"code":"FF","lines":1}
{"lines":14,"accepted":2,"other":12,"faults":0,"bad":0}
$ 0 pmb decode --all --json --values
B0 99 / B1 03 4C 54 43 -> {"line":1,"address":"58","code":"99","name":"MFR_ID","direction":"read","payload":"03 4C 54 43","text":"LTC","pec":false}
B0 7B / B1 82 CE -> {"line":2,"address":"58","code":"7B","name":"STATUS_IOUT","direction":"read","payload":"82","flags":["IOUT_OC_FAULT","POUT_OP_FAULT"],"pec":true}
B0 02 16 -> {"line":3,"address":"58","code":"02","name":"ON_OFF_CONFIG","direction":"write","payload":"16","value":"by CONTROL, CONTROL active high, off with delay","pec":false}
B0 19 / B1 B0 -> {"line":4,"address":"58","code":"19","name":"CAPABILITY","direction":"read","payload":"B0","value":"PEC, 400 kHz, SMBALERT#","pec":false}
B0 20 / B1 17 E4 -> {"line":5,"address":"58","code":"20","name":"VOUT_MODE","direction":"read","payload":"17","value":"ULINEAR16 -9"}
B0 8D / B1 D8 07 -> {"line":6,"address":"58","code":"8D","name":"READ_TEMPERATURE_1","direction":"read","payload":"D8 07","numerator":-40,"denominator":1,"celsius":-40,"assumed":true,"pec":false}
{"count":"CAPABILITY","lines":1}
{"count":"VOUT_MODE","lines":1}
{"count":"READ_TEMPERATURE_1","lines":1}
{"code":"02","lines":1}
{"code":"7B","lines":1}
{"code":"99","lines":1}
{"lines":6,"accepted":3,"other":3,"faults":0,"bad":0}
$ 1 pmb decode --times --json
0012 B0 03 46 -> {"line":1,"time":0,"address":"58","code":"03","name":"CLEAR_FAULTS","direction":"send"}
13 -> {"line":2,"time":1,"direction":"write","fault":"F1 NotOurs"}
x -> {"line":3,"fault":"X1 Syntax"}
14 B0 9 -> {"line":4,"fault":"X2 BadHex"}
{"count":"CLEAR_FAULTS","lines":1}
{"lines":4,"accepted":1,"faults":1,"bad":2}
"#;
