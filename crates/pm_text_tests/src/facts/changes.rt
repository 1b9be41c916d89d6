//! What `--explain` shows: transfers that failed, and words of registers that changed with nothing that writes them.

/// Captures, as `are_told` reads them.
pub(super) static CHANGES: &str = r#"
$ 0 pmb decode --explain
// A part restarted: its word of output 0 is another one, and that of output 1 is the same.
B0 06 02 00 21 / B1 02 9A 0D 71 -> 58 page 0 VOUT_COMMAND read 0D9A
B0 06 02 01 21 / B1 02 00 10 68 -> 58 page 1 VOUT_COMMAND read 1000
B0 06 02 00 40 / B1 02 FF FF DB -> 58 page 0 code 40 VOUT_OV_FAULT_LIMIT read FF FF, PEC right
B0 06 02 00 21 / B1 02 00 10 41 -> 58 page 0 VOUT_COMMAND read 1000 CHANGED? lines 1 and 4
B0 06 02 01 21 / B1 02 00 10 68 -> 58 page 1 VOUT_COMMAND read 1000
B0 06 02 00 40 / B1 02 FF FE DC -> 58 page 0 code 40 VOUT_OV_FAULT_LIMIT read FF FE, PEC right CHANGED? lines 3 and 6
B0 06 02 00 21 / B1 02 00 10 41 -> 58 page 0 VOUT_COMMAND read 1000
count VOUT_COMMAND 5, code 40 2
lines 7 accepted 5 other 2 faults 0 bad 0
$ 1 pmb decode --explain
// What may have changed a word ends the comparison: a write of this output, or of any; STORE; RESTORE; a bad line.
B0 06 02 00 01 / B1 01 80 73 -> 58 page 0 OPERATION read 80
B0 05 03 01 01 00 E0 -> 58 page 1 OPERATION write 00
B0 06 02 00 01 / B1 01 00 FA -> 58 page 0 OPERATION read 00 CHANGED? lines 1 and 3
B0 05 03 00 01 80 02 -> 58 page 0 OPERATION write 80
B0 06 02 00 01 / B1 01 80 73 -> 58 page 0 OPERATION read 80
B0 05 03 01 01 00 00 -> 58 write F5 WrongPec 6
B0 06 02 00 01 / B1 01 00 FA -> 58 page 0 OPERATION read 00
B0 11 -> 58 code 11 STORE_DEFAULT_ALL send, no PEC
B0 06 02 00 01 / B1 01 80 73 -> 58 page 0 OPERATION read 80
B0 15 24 -> 58 STORE_USER_ALL send
B0 06 02 00 01 / B1 01 00 FA -> 58 page 0 OPERATION read 00
B0 18 21 -> 58 code 18 RESTORE_USER_CODE write 21, no PEC
B0 06 02 00 01 / B1 01 80 73 -> 58 page 0 OPERATION read 80
00 01 00 -> -- write F1 NotOurs
B0 06 02 00 01 / B1 01 00 FA -> 58 page 0 OPERATION read 00
B0 9 -> X2 BadHex
B0 06 02 00 01 / B1 01 80 73 -> 58 page 0 OPERATION read 80
B0 06 02 00 01 / B1 01 00 FA -> 58 page 0 OPERATION read 00 CHANGED? lines 17 and 18
count OPERATION 12, STORE_USER_ALL 1, code 11 1, code 18 1
lines 18 accepted 13 other 2 faults 2 bad 1
$ 0 pmb decode --explain
// Of plain packets the output has to be known; a marked read isn't, nor is one that nobody answered.
B0 00 00 EA -> 58 PAGE write 00
B0 21 / B1 00 10 E8 -> 58 page 0? VOUT_COMMAND read 1000
B0 00 01 ED -> 58 PAGE write 01
B0 21 / B1 00 20 78 -> 58 page 1? VOUT_COMMAND read 2000
B0 06 02 00 21 / B1 02 00 11 46 -> 58 page 0 VOUT_COMMAND read 1100 CHANGED? lines 2 and 5
B0 00 00 -> 58 PAGE write 00, no PEC
B0 21 / B1 FF FF -> 58 page 0? VOUT_COMMAND read FFFF, all ones: nobody answered?
B0 00 02 E5 -> 58 write F5 WrongPec 3
B0 21 / B1 00 12 E6 -> 58 VOUT_COMMAND read 1200 WRONG PAGE? lines 8 and 9
B0 00 FF 19 -> 58 PAGE write FF
B0 21 / B1 00 12 E6 -> 58 page 255? VOUT_COMMAND read 1200
B0 21 / B1 00 13 E1 -> 58 page 255? VOUT_COMMAND read 1300
B0 00 / B1 00 C2 -> 58 PAGE read 00 WRONG PAGE? lines 10 and 13
B0 21 / B1 00 14 F4 -> 58 page 0? VOUT_COMMAND read 1400
count PAGE 5, VOUT_COMMAND 8
lines 14 accepted 13 other 0 faults 1 bad 0
$ 0 pmb decode --explain
// An address that has no pages is one output. Only these codes count; a write of WRITE_PROTECT is one of the device.
B0 02 / B1 16 -> 58 code 02 ON_OFF_CONFIG read 16, no PEC
B0 02 / B1 17 -> 58 code 02 ON_OFF_CONFIG read 17, no PEC CHANGED? lines 1 and 2
B0 10 / B1 00 -> 58 WRITE_PROTECT read 00, no PEC
B0 10 / B1 80 -> 58 WRITE_PROTECT read 80, no PEC CHANGED? lines 3 and 4
B0 10 00 -> 58 WRITE_PROTECT write 00, no PEC
B0 10 / B1 00 -> 58 WRITE_PROTECT read 00, no PEC
B0 20 / B1 14 -> 58 VOUT_MODE read 14, no PEC
B0 20 / B1 15 -> 58 VOUT_MODE read 15, no PEC CHANGED? lines 7 and 8
B0 2B / B1 00 10 -> 58 VOUT_MIN read 1000, no PEC
B0 2B / B1 01 10 -> 58 VOUT_MIN read 1001, no PEC CHANGED? lines 9 and 10
B0 2C / B1 00 10 -> 58 code 2C read 00 10, no PEC
B0 2C / B1 01 10 -> 58 code 2C read 01 10, no PEC
B0 3F / B1 00 -> 58 code 3F FAN_COMMAND_4 read 00, no PEC
B0 3F / B1 01 -> 58 code 3F FAN_COMMAND_4 read 01, no PEC
* B0 6B / B1 @ -> 58 code 6B PIN_OP_WARN_LIMIT read @
00 = 00, no PEC; 01 = 01, no PEC CHANGED? lines 15 and 16; 02 01 = 02 01, no PEC
02 02 = 02 02, no PEC CHANGED? lines 17 and 18; 02 02 02 = 02 02 02, no PEC
B0 6C / B1 00 -> 58 code 6C read 00, no PEC
B0 6C / B1 01 -> 58 code 6C read 01, no PEC
B0 8B / B1 00 10 -> 58 READ_VOUT read 1000, no PEC
B0 8B / B1 00 11 -> 58 READ_VOUT read 1100, no PEC
B2 20 / B3 16 -> 59 VOUT_MODE read 16, no PEC
count WRITE_PROTECT 4, VOUT_MODE 3, VOUT_MIN 2, READ_VOUT 2, code 02 2, code 2C 2, code 3F 2
count code 6B 5, code 6C 2
lines 24 accepted 11 other 13 faults 0 bad 0
$ 0 pmb decode --explain
// Failed transfers keep their places, with their reasons. One may have written its word, and one that nobody answered may be a restart.
B0 06 02 00 21 / B1 02 00 10 41 -> 58 page 0 VOUT_COMMAND read 1000
# failed (-110): B0 05 04 00 21 CD 34 5A: Connection timed out -> failed: timed out
B0 06 02 00 21 / B1 02 CD 34 B9 -> 58 page 0 VOUT_COMMAND read 34CD
# failed (-110): B0 06 02 00 21 -> failed: timed out
# failed (-5): B0 05 04 00 24 CD 34 5A -> failed: bus error
B0 06 02 00 21 / B1 02 00 10 41 -> 58 page 0 VOUT_COMMAND read 1000 CHANGED? lines 3 and 6
B0 8B / B1 00 10 8B -> 58 READ_VOUT read 1000
# failed (-6): B0 8B / B1 -> failed: not acknowledged
B0 06 02 00 21 / B1 02 CD 34 B9 -> 58 page 0 VOUT_COMMAND read 34CD
# failed (-121): B0 -> failed: not acknowledged
# failed (-11): B0 03 46 -> failed: lost the arbitration
# failed (-16): B0 03 46 -> failed: the bus was busy
# failed (-71): B0 03 46 -> failed: no reason is given
# failed (1 of 2): B0 06 02 00 21 / B1 -> failed: no reason is given
# failed: B0 03 46: 0 of 2 messages went -> failed: no reason is given
count VOUT_COMMAND 4, READ_VOUT 1
lines 5 accepted 5 other 0 faults 0 bad 0
$ 0 pmb decode --explain --times
// With their times, which count from the first one, and as objects.
# failed at 1796052351852234 (-6): B0 06 02 00 21: No such device or address -> 0 us failed: not acknowledged
1796052351852240 B0 03 46 -> 6 us 58 CLEAR_FAULTS send
# failed at 1796052351852334 (-110): B0 03 46 -> 100 us failed: timed out
# failed at 1000000000000000000 (-6): B0 03 46 -> failed: no reason is given
# failed (-6): B0 03 46 -> failed: not acknowledged
count CLEAR_FAULTS 1
lines 1 accepted 1 other 0 faults 0 bad 0
$ 0 pmb decode --explain --times --json
5 B0 20 / B1 14 -> {"line":1,"time":0,"address":"58","code":"20","name":"VOUT_MODE","direction":"read","payload":"14","pec":false}
# failed at 7 (-110): B0 20 / B1 -> {"line":2,"time":2,"failed":"timed out"}
8 B0 20 / B1 17 -> {"line":3,"time":3,"address":"58","code":"20","name":"VOUT_MODE","direction":"read","payload":"17","pec":false}
9 B0 20 / B1 14 -> {"line":4,"time":4,"address":"58","code":"20","name":"VOUT_MODE","direction":"read","payload":"14","pec":false,"changed":[3,4]}
# failed (-16): B0 -> {"line":5,"failed":"the bus was busy"}
{"count":"VOUT_MODE","lines":3}
{"lines":3,"accepted":3,"other":0,"faults":0,"bad":0}
$ 0 pmb decode --all --pages
// Without the option nothing of it is shown.
B0 20 / B1 14 -> 58 VOUT_MODE read 14, no PEC
B0 20 / B1 17 -> 58 VOUT_MODE read 17, no PEC
count VOUT_MODE 2
lines 2 accepted 2 other 0 faults 0 bad 0
"#;
