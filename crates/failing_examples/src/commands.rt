// Every command, with how many calls it makes where none fails.
use crate::stores::{PAM, Store};

/// A command line over a store, what it is given, and how many calls it makes of the files, the
/// store, the output, the error stream and the door.
pub struct Command {
    pub line: &'static str,
    pub given: &'static str,
    pub store: Store,
    pub calls: [u64; 5],
}

const QUADRATIC: &str =
    "version = 1\nscaling = [2, 1, 1]\n[[noise]]\nname = \"xi\"\ndegree = \"-1-k\"\n[[unknown]]\nname = \"u\"\ndegree = \"2\"\nregularity = \"1/2\"\nright = \"u^2*xi\"\n";

const TABLE: &str = "[xi] 2\n";

const GET: &str = "GET /projects/pam/report HTTP/1.1\r\n\r\n";

const DELETE: &str = "DELETE /projects/pam HTTP/1.1\r\n\r\n";

const PUT: &str =
    "PUT /projects/new HTTP/1.1\r\nContent-Length: 173\r\n\r\n{\"file\":\"version = 1\\nscaling = [2, 1, 1]\\n[[noise]]\\nname = \\\"xi\\\"\\ndegree = \\\"-1-k\\\"\\n[[unknown]]\\nname = \\\"u\\\"\\ndegree = \\\"2\\\"\\nregularity = \\\"1/2\\\"\\nright = \\\"u*xi\\\"\\n\"}";

// The tree `[xi]` has its true row, and the other three trees have none.
const ONE_ROW: Store = Store::Valued { value: "0 0" };

pub const COMMANDS: &[Command] = &[
    Command {
        line: "check file",
        given: PAM,
        store: ONE_ROW,
        calls: [1, 0, 1, 0, 0],
    },
    Command {
        line: "add new file",
        given: PAM,
        store: ONE_ROW,
        calls: [1, 1, 1, 0, 0],
    },
    Command {
        line: "add pam file",
        given: QUADRATIC,
        store: ONE_ROW,
        calls: [1, 1, 1, 0, 0],
    },
    Command {
        line: "show pam",
        given: "",
        store: ONE_ROW,
        calls: [0, 1, 1, 0, 0],
    },
    Command {
        line: "remove pam",
        given: "",
        store: ONE_ROW,
        calls: [0, 1, 1, 0, 0],
    },
    Command {
        line: "names",
        given: "",
        store: ONE_ROW,
        calls: [0, 1, 1, 0, 0],
    },
    Command {
        line: "compute pam",
        given: "",
        store: ONE_ROW,
        calls: [0, 3, 1, 1, 0],
    },
    Command {
        line: "compute pam --fresh",
        given: "",
        store: ONE_ROW,
        calls: [0, 2, 1, 1, 0],
    },
    Command {
        line: "trees pam",
        given: "",
        store: ONE_ROW,
        calls: [0, 1, 1, 0, 0],
    },
    Command {
        line: "detail pam [xi*u[xi]]",
        given: "",
        store: ONE_ROW,
        calls: [0, 1, 1, 0, 0],
    },
    Command {
        line: "act pam [xi] file",
        given: TABLE,
        store: ONE_ROW,
        calls: [1, 1, 1, 0, 0],
    },
    Command {
        line: "act pam [xi] file --recentre",
        given: TABLE,
        store: ONE_ROW,
        calls: [1, 1, 1, 0, 0],
    },
    Command {
        line: "multiply pam [xi] file file",
        given: TABLE,
        store: ONE_ROW,
        calls: [2, 1, 1, 0, 0],
    },
    Command {
        line: "sample 4",
        given: "",
        store: ONE_ROW,
        calls: [0, 0, 1, 0, 0],
    },
    Command {
        line: "audit",
        given: "",
        store: ONE_ROW,
        calls: [0, 2, 1, 0, 0],
    },
    Command {
        line: "migrate",
        given: "",
        store: Store::Old,
        calls: [0, 2, 1, 0, 0],
    },
    Command {
        line: "serve 1 8080",
        given: GET,
        store: ONE_ROW,
        calls: [0, 3, 1, 0, 4],
    },
    Command {
        line: "serve 1 8080",
        given: PUT,
        store: ONE_ROW,
        calls: [0, 1, 1, 0, 6],
    },
    Command {
        line: "serve 1 8080",
        given: DELETE,
        store: ONE_ROW,
        calls: [0, 1, 1, 0, 4],
    },
];
