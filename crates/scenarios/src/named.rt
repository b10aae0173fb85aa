// Days with a name: a text, and bytes put behind its command file. Without a text the bytes are the file.

pub const DAYS: [(&'static str, &'static str, &'static [u8]); 16] = [
    (
        "worked-day",
        "terms 10 30 100\nreading 1 5 0 2\nreading 1 12 0 3\nwatermark 40\nreading 1 20 0 1\nreading 1 33 0 4\nreading 1 27 0 5\nwatermark 44\nreading 1 9 0 1\nreading 1 27 0 5\nwatermark 43\nreading 2 100 0 7\nreading 2 100 1 7\nwatermark 111\nwatermark 120\n",
        b"",
    ),
    ("empty-file", "", b""),
    (
        "one-byte-short-of-terms",
        "",
        b"\x0a\0\0\0\0\0\0\0\x1e\0\0\0\0\0\0\0\x64\0\0\0\0\0\0",
    ),
    ("terms-only", "terms 10 30 100\n", b""),
    (
        "cut-reading",
        "terms 10 30 100\nreading 1 5 0 2\nwatermark 40\n",
        b"\0\x01\0\0\0\0\0\0\0\x05\0\0\0\0\0\0\0\x02\0\0",
    ),
    (
        "cut-watermark",
        "terms 10 30 100\nreading 1 5 0 2\n",
        b"\x01\x28\0\0\0\0\0\0",
    ),
    (
        "unknown-kind",
        "terms 10 30 100\nreading 1 5 0 2\nwatermark 40\n",
        b"\x02\0\0\0\0\0\0\0\0",
    ),
    (
        "bad-gap",
        "terms 1099511627776 30 100\nreading 1 5 0 2\nwatermark 1099511627776\n",
        b"",
    ),
    (
        "bad-lateness",
        "terms 10 1099511627776 0\nreading 1 1099511627776 0 2\nwatermark 40\n",
        b"",
    ),
    (
        "bad-day",
        "terms 10 30 0\nreading 1 5 0 2\nwatermark 40\n",
        b"",
    ),
    (
        "out-of-bounds",
        "terms 10 30 100\nreading 1 1099511627775 0 2\nreading 1 1099511627776 0 2\nwatermark 1099511627776\nwatermark 18446744073709551615\nwatermark 1099511627775\n",
        b"",
    ),
    (
        "largest-numbers",
        "terms 0 1099511627775 18446744073709551615\nreading 4294967295 1099511627774 4294967295 4294967295\nreading 4294967295 1099511627774 4294967294 4294967295\nwatermark 1099511627775\n",
        b"",
    ),
    (
        "gap-0",
        "terms 0 0 1\nreading 1 5 0 1\nreading 1 5 1 1\nreading 1 6 0 1\nwatermark 5\nwatermark 6\nreading 1 6 1 4\nreading 1 5 2 1\nwatermark 7\n",
        b"",
    ),
    (
        "joined-by-one",
        "terms 10 100 100\nreading 7 0 0 1\nreading 7 22 0 2\nwatermark 50\nreading 7 11 0 4\nreading 7 10 0 8\nreading 7 12 0 16\n",
        b"",
    ),
    (
        "late-by-one",
        "terms 10 30 100\nreading 1 20 0 1\nwatermark 50\nreading 1 20 1 2\nreading 1 19 0 4\nwatermark 51\nreading 1 20 2 8\nreading 1 21 0 16\nwatermark 92\n",
        b"",
    ),
    (
        "line-goes",
        "terms 10 30 5\nreading 1 8 0 1\nreading 1 24 0 2\nwatermark 35\nreading 1 16 0 4\nwatermark 36\n",
        b"",
    ),
];
