// The picture of a recording, against that of a reader in Python that shares no code with the
// crates, but for the title, in which the zone stands after the date.
use crate::report::RECORDING;
use jiff_core::Offset;
use osc_drawing::{Sketch, entries_of, heading_of, picture_of};
use osc_picture::add_svg;
use osc_record::Unread;
use osc_shown::WallClock;
use std::alloc::Global;
use std::test::*;

/// What stands after the style.
const DRAWN: &[u8] = b"<rect class=\"p\" x=\"0\" y=\"0\" width=\"8000\" height=\"4730\"/>\n\
<rect class=\"l\" x=\"1700\" y=\"1330\" width=\"6040\" height=\"170\"/>\n\
<rect class=\"l\" x=\"1700\" y=\"1860\" width=\"37\" height=\"340\"/>\n\
<rect class=\"l\" x=\"1700\" y=\"2240\" width=\"6040\" height=\"340\"/>\n\
<path class=\"s\" d=\"M1704 1230V3820M2457 1230V3820M3211 1230V3820M3964 1230V3820M4717 1230V3820M5471 1230V3820M6224 1230V3820M6978 1230V3820M7731 1230V3820\"/>\n\
<text class=\"m\" x=\"1704\" y=\"1190\">20:00</text>\n\
<text class=\"m\" x=\"1704\" y=\"3980\">20:00</text>\n\
<text class=\"m h\" x=\"2457\" y=\"1190\">20:30</text>\n\
<text class=\"m h\" x=\"2457\" y=\"3980\">20:30</text>\n\
<text class=\"m\" x=\"3211\" y=\"1190\">21:00</text>\n\
<text class=\"m\" x=\"3211\" y=\"3980\">21:00</text>\n\
<text class=\"m h\" x=\"3964\" y=\"1190\">21:30</text>\n\
<text class=\"m h\" x=\"3964\" y=\"3980\">21:30</text>\n\
<text class=\"m\" x=\"4717\" y=\"1190\">22:00</text>\n\
<text class=\"m\" x=\"4717\" y=\"3980\">22:00</text>\n\
<text class=\"m h\" x=\"5471\" y=\"1190\">22:30</text>\n\
<text class=\"m h\" x=\"5471\" y=\"3980\">22:30</text>\n\
<text class=\"m\" x=\"6224\" y=\"1190\">23:00</text>\n\
<text class=\"m\" x=\"6224\" y=\"3980\">23:00</text>\n\
<text class=\"m h\" x=\"6978\" y=\"1190\">23:30</text>\n\
<text class=\"m h\" x=\"6978\" y=\"3980\">23:30</text>\n\
<text class=\"m\" x=\"7731\" y=\"1190\">00:00</text>\n\
<text class=\"m\" x=\"7731\" y=\"3980\">00:00</text>\n\
<text class=\"g\" x=\"150\" y=\"1810\">/light</text>\n\
<text class=\"g\" x=\"150\" y=\"2890\">no method</text>\n\
<path class=\"j\" d=\"M1704 1900V3070M1722 1900V3070M1737 1900V2540\"/>\n\
<text class=\"a\" x=\"150\" y=\"1460\">/keys/chord</text>\n\
<path class=\"w\" d=\"M1750 1415H7740\"/>\n\
<rect class=\"p\" x=\"1725\" y=\"1390\" width=\"50\" height=\"50\"/>\n\
<path class=\"o\" d=\"M1725 1390H1775V1440H1725V1385\"/>\n\
<rect class=\"p\" x=\"7715\" y=\"1390\" width=\"50\" height=\"50\"/>\n\
<path class=\"o\" d=\"M7715 1390H7765V1440H7715V1385\"/>\n\
<text class=\"a\" x=\"150\" y=\"2075\">/back</text>\n\
<path class=\"w\" d=\"M1700 2155H1704\"/>\n\
<rect class=\"p\" x=\"1675\" y=\"2130\" width=\"50\" height=\"50\"/>\n\
<path class=\"o\" d=\"M1675 2130H1725V2180H1675V2125\"/>\n\
<path class=\"k\" d=\"M1704 2130V2180\"/>\n\
<path class=\"c\" d=\"M1704 2100H1737\"/>\n\
<text class=\"v e\" x=\"1660\" y=\"1960\">1</text>\n\
<text class=\"v e\" x=\"1660\" y=\"2100\">0</text>\n\
<path class=\"o\" d=\"M1717 2130H1757V2180H1717V2125\"/>\n\
<path class=\"x\" d=\"M1692 2125L1752 2185M1692 2185L1752 2125\"/>\n\
<text class=\"a\" x=\"150\" y=\"2455\">/front</text>\n\
<path class=\"w\" d=\"M1700 2535H1704M1750 2535H7740\"/>\n\
<rect class=\"p\" x=\"1675\" y=\"2510\" width=\"50\" height=\"50\"/>\n\
<path class=\"o\" d=\"M1675 2510H1725V2560H1675V2505\"/>\n\
<rect class=\"p\" x=\"1725\" y=\"2510\" width=\"50\" height=\"50\"/>\n\
<path class=\"o\" d=\"M1725 2510H1775V2560H1725V2505\"/>\n\
<path class=\"k\" d=\"M1704 2510V2560M1737 2510V2560M7735 2510V2560\"/>\n\
<path class=\"c\" d=\"M1704 2480V2280V2480V2280H1737V2441H7735V2401H7740\"/>\n\
<text class=\"v e\" x=\"1660\" y=\"2340\">1</text>\n\
<text class=\"v e\" x=\"1660\" y=\"2480\">0</text>\n\
<path class=\"x\" d=\"M1692 2505L1752 2565M1692 2565L1752 2505\"/>\n\
<text class=\"a\" x=\"150\" y=\"3070\">/cue/name</text>\n\
<path class=\"w\" d=\"M1700 3025H1704\"/>\n\
<rect class=\"p\" x=\"1675\" y=\"3000\" width=\"50\" height=\"50\"/>\n\
<path class=\"o\" d=\"M1675 3000H1725V3050H1675V2995\"/>\n\
<path class=\"o\" d=\"M1684 2975H1724V3075H1684V2970\"/>\n\
<path class=\"x\" d=\"M1692 2995L1752 3055M1692 3055L1752 2995\"/>\n\
<text class=\"a\" x=\"150\" y=\"3280\">/drums/hit</text>\n\
<path class=\"x\" d=\"M1678 3205L1738 3265M1678 3265L1738 3205\"/>\n\
<text class=\"a\" x=\"150\" y=\"3490\">/fader/7</text>\n\
<path class=\"o\" d=\"M1686 3395H1726V3495H1686V3390\"/>\n\
<text class=\"a\" x=\"150\" y=\"3700\">/video/clip</text>\n\
<path class=\"o\" d=\"M1702 3605H1742V3705H1702V3600\"/>\n\
<text class=\"t\" x=\"150\" y=\"330\">Sunday 2026-11-29, UTC, 19:59:50 to 00:00:20</text>\n\
<text class=\"\" x=\"150\" y=\"560\">4 h 0 min 30.000 s: 8 messages, 5 calls</text>\n\
<text class=\"\" x=\"150\" y=\"750\">4 called no method, 2 discarded, 2 refused, 3 waiting</text>\n\
<path d=\"M180 4190V4310\"/>\n\
<text class=\"\" x=\"260\" y=\"4300\">call</text>\n\
<path class=\"j\" d=\"M1320 4190V4310\"/>\n\
<path d=\"M1320 4190V4230M1320 4270V4310\"/>\n\
<text class=\"\" x=\"1400\" y=\"4300\">bundle</text>\n\
<path class=\"w\" d=\"M2710 4250H2860\"/>\n\
<rect class=\"p\" x=\"2685\" y=\"4225\" width=\"50\" height=\"50\"/>\n\
<path class=\"o\" d=\"M2685 4225H2735V4275H2685V4220\"/>\n\
<path d=\"M2860 4210V4290\"/>\n\
<text class=\"\" x=\"2940\" y=\"4300\">came and waited</text>\n\
<path class=\"x\" d=\"M4900 4220L4960 4280M4900 4280L4960 4220\"/>\n\
<text class=\"\" x=\"5020\" y=\"4300\">discarded or refused</text>\n\
<path class=\"o\" d=\"M160 4430H200V4530H160V4425\"/>\n\
<text class=\"\" x=\"260\" y=\"4530\">no method</text>\n\
<path class=\"c\" d=\"M1270 4530H1310V4480H1350V4430H1390\"/>\n\
<text class=\"\" x=\"1460\" y=\"4530\">its number</text>\n\
<rect class=\"l\" x=\"2690\" y=\"4425\" width=\"190\" height=\"120\"/>\n\
<text class=\"\" x=\"2940\" y=\"4530\">the method is there</text>\n\
</svg>\n";

#[test]
fn a_recording_is_drawn_and_goes_on_with_the_next(rt: HostRuntime) -> Result<(), Fail> {
    let alloc: Global = rt.alloc();
    let Ok(mut unread) = Unread::open(&RECORDING) else {
        panic!(rt; "no header");
    };
    let late = unread.caps().late();
    let (entries, cut) = entries_of(alloc, &mut unread)?;
    let Ok(mut sketch) = Sketch::of(alloc, late, &entries) else {
        panic!(rt; "no sketch");
    };
    let heading = heading_of(alloc, WallClock::at(Offset::UTC), &sketch, cut)?;
    let frame = sketch.frame(172_800_000);
    let picture = picture_of(alloc, &sketch, frame, heading)?;
    let mut text = Vec::new(alloc);
    add_svg(&mut text, &picture)?;
    assert!(rt; text.ends_with(DRAWN));
    // The same entries, as those of the recording after it.
    let (once, first) = (sketch.totals(), sketch.first());
    assert!(rt; sketch.go_on(late, &entries).is_ok());
    let twice = sketch.totals();
    assert_eq!(rt; twice, once.with(once));
    assert_eq!(rt; Some(twice.calls), once.calls.checked_add(once.calls));
    assert_eq!(rt; sketch.first(), first);
    assert_eq!(rt; sketch.story().totals(), once);
    Ok(())
}
