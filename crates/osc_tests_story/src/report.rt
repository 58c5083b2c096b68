// The lines of a recording. It was written out by its format, and the expected lines are those of a
// reader of recordings in Python that shares no code with the crates.
use jiff_core::Offset;
use osc_pattern::Pattern;
use osc_record::Unread;
use osc_report::{Options, Reporter, Selector, Shown};
use osc_shown::{Look, WallClock};
use std::alloc::Global;
use std::process::Abort;
use std::test::*;

/// Caller 0 enrols another, adds methods, some of which aren't added, and hands in packets that
/// wait, are called, are refused, and are late.
pub(crate) const RECORDING: [u8; 2524] =
    *b"\0\0\08/osc/rec\0\0\0\0,iiiiiiii\0\0\0\0\0\0\x02\0\0\0\x18\0\0\0@\0\0\0\x08\0\0\0\x10\0\0\0\
\x04\0\x01\x86\xa0\0\0\0\x01\0\0\0\x18/osc/enrol\0\0,ii\0\0\0\0\0\0\0\0\x01\0\0\0\x18/osc/en\
rol\0\0,ii\0\0\0\0\0\xff\xff\xff\xff\0\0\04/osc/add\0\0\0\0,isiii\0\0\0\0\0\0/light/front\0\
\0\0\0\0\0\0\0\0\0\0\0\0\0\0\0\0\0\00/osc/add\0\0\0\0,isiii\0\0\0\0\0\0/light/back\0\0\0\0\0\
\0\0\0\x01\0\0\0\0\0\0\00/osc/add\0\0\0\0,isiii\0\0\0\0\0\0/keys/chord\0\0\0\0\0\0\0\0\x02\0\
\0\0\0\0\0\04/osc/add\0\0\0\0,isiii\0\0\0\0\0\0/light/front\0\0\0\0\0\0\0\x01\0\0\0\0\0\0\0\
\0\0\0\04/osc/add\0\0\0\0,isiii\0\0\0\0\0\0/light/front/x\0\0\0\0\0\x02\0\0\0\0\0\0\0\0\0\0\
\0,/osc/add\0\0\0\0,isiii\0\0\0\0\0\0/light\0\0\0\0\0\x03\0\0\0\0\0\0\0\0\0\0\0,/osc/add\0\0\
\0\0,isiii\0\0\0\0\0\0/more\0\0\0\0\0\0\x04\0\0\0\x03\0\0\0\0\0\0\0,/osc/add\0\0\0\0,isiii\0\
\0\0\0\0\0/a/b/c\0\0\0\0\0\x05\0\0\0\x03\0\0\0\x02\0\0\0,/osc/tick\0\0\0,itit\0\0\0\0\0\0\0\
\xee\xb7\x02\xb6\0\0\0\0\0\0\0\0\xee\xb7\x02\xb6\0\0\0\0\0\0\0\x90/osc/submit\0,ibihii\0\0\0\
\0\0\0\0\0`#bundle\0\xee\xb7\x02\xc0\0\0\0\0\0\0\0\x14/light/*\0\0\0\0,i\0\0\0\0\0\0\0\0\0\
\x18/light/front\0\0\0\0,f\0\0?\x80\0\0\0\0\0\x18/cue/name\0\0\0,s\0\0act one\0\0\0\0\0\0\0\
\0\0\0\0\0\0\0\0\0\x01\0\0\0\0\0\0\0,/osc/tick\0\0\0,itit\0\0\0\0\0\0\0\xee\xb7\x02\xb8\0\0\
\0\0\0\0\0\0\xee\xb7\x02\xb8\0\0\0\0\0\0\0,/osc/tick\0\0\0,itit\0\0\0\0\0\0\0\xee\xb7\x02\
\xc0\0\0\0\0\0\0\0\0\xee\xb7\x02\xc0\0\0\0\0\0\0\0@/osc/release\0\0\0\0,ihb\0\0\0\0\0\0\0\0\
\0\0\0\0\0\0\0\0\0\0\0\x18\0\0\0\0\0\0\0\x01\0\0\0\0\0\0\0\0\0\0\0\x01\0\0\0\0\0\0\0D/osc/su\
bmit\0,ibihii\0\0\0\0\0\0\0\0\x14/fader/7\0\0\0\0,f\0\0>\x80\0\0\0\0\0\0\0\0\0\0\0\0\0\x01\0\
\0\0\x01\0\0\0\0\0\0\0,/osc/tick\0\0\0,itit\0\0\0\0\0\0\0\xee\xb7\x02\xc5O\\(\xf6\0\0\0\0\
\xee\xb7\x02\xc5O\\(\xf6\0\0\0(/osc/release\0\0\0\0,ihb\0\0\0\0\0\0\0\0\0\0\0\0\0\0\0\x01\0\
\0\0\0\0\0\0H/osc/submit\0,ibihii\0\0\0\0\0\0\0\0\x18/drums/hit\0\0,si\0hat\0\0\0\0F\0\0\0\
\x01\0\0\0\0\0\0\0\x01\0\0\0\0\0\0\0\0\0\0\0H/osc/submit\0,ibihii\0\0\0\0\0\0\0\0\x18/drums/\
hit\0\0,si\0hat\0\0\0\0G\0\0\0\x02\0\0\0\0\0\0\0\x01\0\0\0\0\0\0\0\0\0\0\0,/osc/tick\0\0\0,i\
tit\0\0\0\0\0\0\0\xee\xb7\x02\xcb\x01G\xae\x15\0\0\0\0\xee\xb7\x02\xcb\x01G\xae\x15\0\0\0,/o\
sc/tick\0\0\0,itit\0\0\0\0\0\0\0\xee\xb7\x02\xe9>v\xc8\xb5\0\0\0\0\xee\xb7\x02\xe9>v\xc8\xb5\
\0\0\0x/osc/submit\0,ibihii\0\0\0\0\0\0\0\0H#bundle\0\xee\xb7\x02\xe8\x1f\xbev\xc9\0\0\0\x14\
/light/*\0\0\0\0,f\0\0?\0\0\0\0\0\0\x1c/cue/name\0\0\0,s\0\0lightning\0\0\0\0\0\0\0\0\0\0\0\
\0\0\0\x02\0\0\0\x01\0\0\0\x01\0\0\0@/osc/submit\0,ibihii\0\0\0\0\0\0\0\0\x10/video/clip\0,A\
\0\0\0\0\0\0\0\0\0\0\0\0\0\x03\0\0\0\x01\0\0\0\0\0\0\0,/osc/tick\0\0\0,itit\0\0\0\0\0\0\0\
\xee\xb7\x02\xec\x80\0\0\x01\0\0\0\0\xee\xb7\x02\xec\x80\0\0\x01\0\0\0(/osc/release\0\0\0\0,\
ihb\0\0\0\0\0\0\0\0\0\0\0\0\0\0\0\x03\0\0\0\0\0\0\0,/osc/remove\0,isii\0\0\0\0\0\0\0/light/b\
ack\0\0\0\0\0\0\0\0\x01\0\0\0(/osc/remove\0,isii\0\0\0\0\0\0\0/none\0\0\0\0\0\0\x01\0\0\0\0\
\0\0\0t/osc/submit\0,ibihii\0\0\0\0\0\0\0\0D#bundle\0\0\0\0\0\0\0\0\x01\0\0\0\x18/light/fron\
t\0\0\0\0,f\0\0>L\xcc\xcd\0\0\0\x14/light/back\0,f\0\0\0\0\0\0\0\0\0\0\0\0\0\0\0\0\0\x04\0\0\
\0\x01\0\0\0\0\0\0\0@/osc/submit\0,ibihii\0\0\0\0\0\0\0\0\x10#bundle\0\0\0\0\0\0\0\0\x01\0\0\
\0\0\0\0\0\0\0\0\0\x05\0\0\0\x01\0\0\0\0\0\0\0,/osc/tick\0\0\0,itit\0\0\0\0\0\0\0\xee\xb7\
\x03\x10\0\0\0\0\0\0\0\0\xee\xb7\x03\x10\0\0\0\0\0\0\00/osc/release\0\0\0\0,ihb\0\0\0\0\0\0\
\0\0\0\0\0\0\0\0\0\x04\0\0\0\x08\0\0\0\0\0\0\0\0\0\0\0(/osc/release\0\0\0\0,ihb\0\0\0\0\0\0\
\0\0\0\0\0\0\0\0\0\x05\0\0\0\0\0\0\0,/osc/tick\0\0\0,itit\0\0\0\0\0\0\0\xee\xb7\x03\x0f\x80\
\0\0\x01\0\0\0\x01\xee\xb7\x03\x10\0\0\0\0\0\0\0t/osc/submit\0,ibihii\0\0\0\0\0\0\0\0D#bundl\
e\0\xee\xb7=X\0\0\0\0\0\0\0\x18/light/front\0\0\0\0,f\0\0>\x99\x99\x9a\0\0\0\x14/keys/chord\
\0,i\0\0\0\0\0\x01\0\0\0\0\0\0\0\0\0\0\0\x06\0\0\0\x01\0\0\0\0\0\0\0,/osc/tick\0\0\0,itit\0\
\0\0\0\0\0\0\xee\xb7\x03.\0\0\0\0\0\0\0\0\xee\xb7\x03.\0\0\0\0\0\0\0H/osc/submit\0,ibihii\0\
\0\0\0\0\0\0\0\x18/light/front\0\0\0\0,f\0\0>\xcc\xcc\xcd\0\0\0\0\0\0\0\0\0\0\0\x07\0\0\0\
\x01\0\0\0\0\0\0\0,/osc/tick\0\0\0,itit\0\0\0\0\0\0\0\xee\xb7;\n\0\0\0\0\0\0\0\0\xee\xb7;\n\
\0\0\0\0\0\0\00/osc/release\0\0\0\0,ihb\0\0\0\0\0\0\0\0\0\0\0\0\0\0\0\x07\0\0\0\x08\0\0\0\0\
\0\0\0\0\0\0\0D/osc/submit\0,ibihii\0\0\0\0\0\0\0\0\x14/keys/chord\0,i\0\0\0\0\0\x02\0\0\0\0\
\0\0\0\0\0\0\0\x08\0\0\0\x01\0\0\0\0\0\0\0,/osc/tick\0\0\0,itit\0\0\0\0\0\0\0\xee\xb7;\x14\0\
\0\0\0\0\0\0\0\xee\xb7;\x14\0\0\0\0";

/// Whether ticks are shown, whether only the lines with `!` and `?` are, from when to when lines are shown, the pattern
/// that selects them or nothing, and the lines. The second last moment is a unit of a time tag before the one that is shown
/// as 20:00:44.500, too.
const LINES: [(bool, bool, Option<u64>, Option<u64>, &[u8], &[u8]); 8] = [
    (
        false,
        false,
        None,
        None,
        b"",
        b"-- Sunday 2026-11-29, UTC\n\
19:59:50.000 +  /light/front\n\
19:59:50.000 +  /light/back\n\
19:59:50.000 +  /keys/chord\n\
19:59:50.000 !  /light/front                    not added, there is a method already\n\
19:59:50.000 !  /light/front/x                  not added, it lies under /light/front\n\
19:59:50.000 !  /light                          not added, others lie under it\n\
19:59:50.000 !  /more                           not added, there are 3 methods, as many as may be\n\
19:59:50.000 !  /a/b/c                          not added, the tree has no room\n\
19:59:52.000 ~  /light/* 0 and 2 more           for 20:00:00.000, in 8.000 s\n\
20:00:00.000  { /light/* 0                      -> /light/back, /light/front\n\
20:00:00.000  | /light/front 1.0\n\
20:00:00.000 ?} /cue/name \"act one\"             no method\n\
20:00:05.310 ?  /fader/7 0.25                   no method\n\
20:00:11.005 !  /drums/hit \"hat\" 70             refused, the queue is full\n\
20:00:11.005 !  /drums/hit \"hat\" 71             refused, no room for its messages\n\
20:00:44.500 !{ /light/* 0.5                    discarded, late by 4.376 s\n\
20:00:44.500 !} /cue/name \"lightning\"           discarded, late by 4.376 s\n\
20:00:44.500 ?  /video/clip ,A                  unknown type A, so it calls nothing\n\
20:01:20.000 -  /light/back\n\
20:01:20.000 !  /none                           not removed, no method is there\n\
20:01:20.000  { /light/front 0.2\n\
20:01:20.000 ?} /light/back 0.0                 no method\n\
20:01:20.000    (no message)\n\
20:01:20.000 !  the clock went back to 20:01:19.500  it stays where it was\n\
20:01:50.000 ~  /light/front 0.3 and 1 more     for 2026-11-30 00:10:00.000, in 14890.000 s\n\
-- Monday 2026-11-30, UTC\n\
00:00:10.000    /light/front 0.4\n\
00:00:20.000 ~  /keys/chord 2                   not called yet\n\
00:00:20.000 ~{ /light/front 0.3                still waits, for 00:10:00.000\n\
00:00:20.000 ~} /keys/chord 1                   still waits, for 00:10:00.000\n\
-- 4 h 0 min 30.000 s: 8 messages, 5 calls; 4 called no method, 2 discarded, 2 refused, 3 waiting\n",
    ),
    (
        true,
        false,
        None,
        None,
        b"",
        b"-- Sunday 2026-11-29, UTC\n\
19:59:50.000 .  caller 1\n\
19:59:50.000 .  no more callers\n\
19:59:50.000 +  /light/front\n\
19:59:50.000 +  /light/back\n\
19:59:50.000 +  /keys/chord\n\
19:59:50.000 !  /light/front                    not added, there is a method already\n\
19:59:50.000 !  /light/front/x                  not added, it lies under /light/front\n\
19:59:50.000 !  /light                          not added, others lie under it\n\
19:59:50.000 !  /more                           not added, there are 3 methods, as many as may be\n\
19:59:50.000 !  /a/b/c                          not added, the tree has no room\n\
19:59:50.000 .  tick\n\
19:59:52.000 ~  /light/* 0 and 2 more           for 20:00:00.000, in 8.000 s\n\
19:59:52.000 .  tick\n\
20:00:00.000 .  tick\n\
20:00:00.000  { /light/* 0                      -> /light/back, /light/front\n\
20:00:00.000  | /light/front 1.0\n\
20:00:00.000 ?} /cue/name \"act one\"             no method\n\
20:00:05.310 .  tick\n\
20:00:05.310 ?  /fader/7 0.25                   no method\n\
20:00:11.005 !  /drums/hit \"hat\" 70             refused, the queue is full\n\
20:00:11.005 !  /drums/hit \"hat\" 71             refused, no room for its messages\n\
20:00:11.005 .  tick\n\
20:00:41.244 .  tick\n\
20:00:44.500 !{ /light/* 0.5                    discarded, late by 4.376 s\n\
20:00:44.500 !} /cue/name \"lightning\"           discarded, late by 4.376 s\n\
20:00:44.500 .  tick\n\
20:00:44.500 ?  /video/clip ,A                  unknown type A, so it calls nothing\n\
20:01:20.000 -  /light/back\n\
20:01:20.000 !  /none                           not removed, no method is there\n\
20:01:20.000 .  tick\n\
20:01:20.000  { /light/front 0.2\n\
20:01:20.000 ?} /light/back 0.0                 no method\n\
20:01:20.000    (no message)\n\
20:01:20.000 !  the clock went back to 20:01:19.500  it stays where it was\n\
20:01:50.000 ~  /light/front 0.3 and 1 more     for 2026-11-30 00:10:00.000, in 14890.000 s\n\
20:01:50.000 .  tick\n\
-- Monday 2026-11-30, UTC\n\
00:00:10.000 .  tick\n\
00:00:10.000    /light/front 0.4\n\
00:00:20.000 .  tick\n\
00:00:20.000 ~  /keys/chord 2                   not called yet\n\
00:00:20.000 ~{ /light/front 0.3                still waits, for 00:10:00.000\n\
00:00:20.000 ~} /keys/chord 1                   still waits, for 00:10:00.000\n\
-- 4 h 0 min 30.000 s: 8 messages, 5 calls; 4 called no method, 2 discarded, 2 refused, 3 waiting\n",
    ),
    (
        false,
        true,
        None,
        None,
        b"",
        b"-- Sunday 2026-11-29, UTC\n\
19:59:50.000 !  /light/front                    not added, there is a method already\n\
19:59:50.000 !  /light/front/x                  not added, it lies under /light/front\n\
19:59:50.000 !  /light                          not added, others lie under it\n\
19:59:50.000 !  /more                           not added, there are 3 methods, as many as may be\n\
19:59:50.000 !  /a/b/c                          not added, the tree has no room\n\
20:00:00.000 ?} /cue/name \"act one\"             no method\n\
20:00:05.310 ?  /fader/7 0.25                   no method\n\
20:00:11.005 !  /drums/hit \"hat\" 70             refused, the queue is full\n\
20:00:11.005 !  /drums/hit \"hat\" 71             refused, no room for its messages\n\
20:00:44.500 !{ /light/* 0.5                    discarded, late by 4.376 s\n\
20:00:44.500 !} /cue/name \"lightning\"           discarded, late by 4.376 s\n\
20:00:44.500 ?  /video/clip ,A                  unknown type A, so it calls nothing\n\
20:01:20.000 !  /none                           not removed, no method is there\n\
20:01:20.000 ?} /light/back 0.0                 no method\n\
20:01:20.000 !  the clock went back to 20:01:19.500  it stays where it was\n\
-- 4 h 0 min 30.000 s: 8 messages, 5 calls; 4 called no method, 2 discarded, 2 refused, 3 waiting\n",
    ),
    (
        false,
        false,
        None,
        None,
        b"/light/front",
        b"-- Sunday 2026-11-29, UTC\n\
19:59:50.000 +  /light/front\n\
19:59:50.000 !  /light/front                    not added, there is a method already\n\
19:59:52.000 ~  /light/* 0 and 2 more           for 20:00:00.000, in 8.000 s\n\
20:00:00.000  { /light/* 0                      -> /light/back, /light/front\n\
20:00:00.000  | /light/front 1.0\n\
20:01:20.000  { /light/front 0.2\n\
20:01:50.000 ~  /light/front 0.3 and 1 more     for 2026-11-30 00:10:00.000, in 14890.000 s\n\
-- Monday 2026-11-30, UTC\n\
00:00:10.000    /light/front 0.4\n\
00:00:20.000 ~{ /light/front 0.3                still waits, for 00:10:00.000\n\
-- of the whole recording, 4 h 0 min 30.000 s: 8 messages, 5 calls; 4 called no method, 2 discarded, 2 refused, 3 waiting\n",
    ),
    (
        false,
        false,
        Some(0xeeb7_02c0_0000_0000),
        Some(0xeeb7_0310_0000_0000),
        b"/light/*",
        b"-- Sunday 2026-11-29, UTC\n\
20:00:00.000  { /light/* 0                      -> /light/back, /light/front\n\
20:00:00.000  | /light/front 1.0\n\
20:00:44.500 !{ /light/* 0.5                    discarded, late by 4.376 s\n\
20:01:20.000 -  /light/back\n\
20:01:20.000  { /light/front 0.2\n\
20:01:20.000 ?} /light/back 0.0                 no method\n\
-- of the whole recording, 4 h 0 min 30.000 s: 8 messages, 5 calls; 4 called no method, 2 discarded, 2 refused, 3 waiting\n",
    ),
    (
        false,
        false,
        None,
        None,
        b"/{cue,keys}/*",
        b"-- Sunday 2026-11-29, UTC\n\
19:59:50.000 +  /keys/chord\n\
19:59:52.000 ~  /light/* 0 and 2 more           for 20:00:00.000, in 8.000 s\n\
20:00:00.000 ?} /cue/name \"act one\"             no method\n\
20:00:44.500 !} /cue/name \"lightning\"           discarded, late by 4.376 s\n\
20:01:50.000 ~  /light/front 0.3 and 1 more     for 2026-11-30 00:10:00.000, in 14890.000 s\n\
-- Monday 2026-11-30, UTC\n\
00:00:20.000 ~  /keys/chord 2                   not called yet\n\
00:00:20.000 ~} /keys/chord 1                   still waits, for 00:10:00.000\n\
-- of the whole recording, 4 h 0 min 30.000 s: 8 messages, 5 calls; 4 called no method, 2 discarded, 2 refused, 3 waiting\n",
    ),
    (
        false,
        false,
        Some(0xeeb7_02c5_4f5c_28f6),
        Some(0xeeb7_02ec_8000_0000),
        b"",
        b"-- Sunday 2026-11-29, UTC\n\
20:00:05.310 ?  /fader/7 0.25                   no method\n\
20:00:11.005 !  /drums/hit \"hat\" 70             refused, the queue is full\n\
20:00:11.005 !  /drums/hit \"hat\" 71             refused, no room for its messages\n\
20:00:44.500 !{ /light/* 0.5                    discarded, late by 4.376 s\n\
20:00:44.500 !} /cue/name \"lightning\"           discarded, late by 4.376 s\n\
20:00:44.500 ?  /video/clip ,A                  unknown type A, so it calls nothing\n\
-- of the whole recording, 4 h 0 min 30.000 s: 8 messages, 5 calls; 4 called no method, 2 discarded, 2 refused, 3 waiting\n",
    ),
    (
        false,
        false,
        Some(0xeeb7_02f0_0000_0000),
        None,
        b"/cue/none",
        b"-- of the whole recording, 4 h 0 min 30.000 s: 8 messages, 5 calls; 4 called no method, 2 discarded, 2 refused, 3 waiting\n",
    ),
];

/// The pattern that selects lines, if there is one.
fn selector<A: Abort>(rt: &A, alloc: Global, pattern: &[u8]) -> Option<Selector> {
    if pattern.is_empty() {
        return None;
    }
    assert!(rt; pattern.len() <= 16);
    match Pattern::check(pattern) {
        Ok(pattern) => Selector::of(alloc, &pattern).ok(),
        Err(_) => None,
    }
}

/// All that is shown of what is left of a recording, and the end.
fn shown<A: Abort>(rt: &A, reporter: &mut Reporter, unread: &mut Unread<'_>, text: &mut Vec<u8>) {
    for _ in 0..41 {
        match reporter.show(text, unread) {
            Ok(Shown::Stretch) => {}
            Ok(Shown::All) => {
                assert!(rt; reporter.end(text).is_ok());
                return;
            }
            _ => panic!(rt; "not shown"),
        }
    }
    panic!(rt; "no end");
}

#[test]
fn lines_are_shown_or_left_out(rt: HostRuntime) {
    for (ticks, quiet, from, to, pattern, want) in LINES {
        let alloc: Global = rt.alloc();
        let Ok(mut unread) = Unread::open(&RECORDING) else {
            panic!(rt; "no header");
        };
        let options = Options {
            look: Look {
                clock: WallClock::at(Offset::UTC),
                since: None,
                caller: None,
                whole: false,
                colours: false,
                quiet,
            },
            relative: false,
            callers: false,
            ticks,
            from,
            to,
            only: selector(&rt, alloc, pattern),
            runs: false,
        };
        let mut reporter = Reporter::open(alloc, options, unread.caps().late());
        let mut text = Vec::new(alloc);
        shown(&rt, &mut reporter, &mut unread, &mut text);
        assert!(rt; text.as_slice() == want);
    }
}
