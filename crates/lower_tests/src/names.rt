use pur_base::Name;

/// A text, and whether it is a name.
const NAMES: [(&str, bool); 7] = [
    ("a", true),
    ("vm-01_data.img", true),
    ("abcdefghijklmnopqrstuvwx", true),
    ("abcdefghijklmnopqrstuvwxy", false),
    ("", false),
    ("Upper", false),
    ("two words", false),
];

#[test]
fn reads_lawful_names(rt: HostRuntime) {
    for (text, lawful) in &NAMES {
        assert!(rt; Name::read(text.as_bytes()).is_ok() == *lawful, "{text}");
    }
}
