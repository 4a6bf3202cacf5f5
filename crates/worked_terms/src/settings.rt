// Settings that draw nothing and search no turn, by the greatest error that they accept.

/// They accept an error of at most 0.
pub const ACCEPT_0: &[u8] =
    br#"{"seed":0,"spread":0,"accept":0,"turns":0,"tabu":5,"patience":3,"steps":[1],"raise":10}"#;

/// They accept an error of at most 1.
pub const ACCEPT_1: &[u8] =
    br#"{"seed":0,"spread":0,"accept":1,"turns":0,"tabu":5,"patience":3,"steps":[1],"raise":10}"#;

/// They accept an error of at most 8.
pub const ACCEPT_8: &[u8] =
    br#"{"seed":0,"spread":0,"accept":8,"turns":0,"tabu":5,"patience":3,"steps":[1],"raise":10}"#;

/// They accept an error of at most 9.
pub const ACCEPT_9: &[u8] =
    br#"{"seed":0,"spread":0,"accept":9,"turns":0,"tabu":5,"patience":3,"steps":[1],"raise":10}"#;

/// They accept an error of at most 99.
pub const ACCEPT_99: &[u8] =
    br#"{"seed":0,"spread":0,"accept":99,"turns":0,"tabu":5,"patience":3,"steps":[1],"raise":10}"#;
