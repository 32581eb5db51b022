// Scripts by other mechanisms than PLAIN.

use crate::cases::Case;

const BY_LOGIN: &[u8] = b"failure_delay = 0\n\
mechanisms = [\"LOGIN\"]\n";

const BY_CRAM: &[u8] = b"failure_delay = 0\n\
mechanisms = [\"CRAM-MD5\"]\n";

const BY_SCRAM: &[u8] = b"failure_delay = 0\n\
mechanisms = [\"SCRAM-SHA-256\"]\n";

pub const LOGIN_ASKS_FOR_THE_NAME_AND_THE_PASSWORD: [Case; 1] = [Case {
    settings: BY_LOGIN,
    script: b"I 1000 1001 1002\n\
1003 line 1 - AUTH~1~LOGIN~service=imap\n\
1004 line 1 - CONT~1~YWxpY2U=\n\
1005 line 1 - CONT~1~cHc=\n\
1006 take\n",
    output: b"H 1 1 LOGIN~plaintext\n\
4 > 1 CONT~1~VXNlcm5hbWU6\n\
5 > 1 CONT~1~UGFzc3dvcmQ6\n\
7 take PASS~1~1~alice\n",
    end: b"",
}];

pub const CRAM_MD5_SENDS_A_CHALLENGE: [Case; 1] = [Case {
    settings: BY_CRAM,
    script: b"I 1000 1001 1002\n\
1003 line 1 - AUTH~1~CRAM-MD5~service=imap\n",
    output: b"H 1 1 CRAM-MD5~dictionary~active\n\
4 > 1 CONT~1~PDAwMDAwMDAwMDAwMDAwMDAwMDAwMDAwMDAwMDAwMDAwLjEwMDNAbG9jYWxob3N0Pg==\n",
    end: b"",
}];

pub const SCRAM_GOES_ON_WITH_STORED_KEYS_ALONE: [Case; 2] = [
    Case {
        settings: BY_SCRAM,
        script: b"I 1000 1001 1002\n\
1003 line 1 - AUTH~1~SCRAM-SHA-256~service=imap~resp=biwsbj11c2VyLHI9ck9wck5HZndFYmVSV2diTkVrcU8=\n\
1004 take\n\
1005 answer FOUND~1~{SCRAM-SHA-256}4096,W22ZaJ0SNY7soEsUEjb6gQ==,AAAAAAAAAAAAAAAAAAAAAAAAAAAAAAAAAAAAAAAAAAA=,AAAAAAAAAAAAAAAAAAAAAAAAAAAAAAAAAAAAAAAAAAA=\n",
        output: b"H 1 1 SCRAM-SHA-256~mutual-auth\n\
5 take PASS~1~1~user\n\
6 > 1 CONT~1~cj1yT3ByTkdmd0ViZVJXZ2JORWtxTzAwMDAwMDAwMDAwMDAwMDAwMDAwMDAwMDAwMDAwMDAwLHM9VzIyWmFKMFNOWTdzb0VzVUVqYjZnUT09LGk9NDA5Ng==\n",
        end: b"",
    },
    Case {
        settings: BY_SCRAM,
        script: b"I 1000 1001 1002\n\
1003 line 1 - AUTH~1~SCRAM-SHA-256~service=imap~resp=biwsbj11c2VyLHI9ck9wck5HZndFYmVSV2diTkVrcU8=\n\
1004 take\n\
1005 answer FOUND~1~{SHA}qZk+NkcGgWq6PiVxeFDCbJzQ2J0=\n",
        output: b"H 1 1 SCRAM-SHA-256~mutual-auth\n\
5 take PASS~1~1~user\n\
6 > 1 FAIL~1~user=user\n",
        end: b"",
    },
];
