//! Rows of `last`, worked out by hand.

/// Rows as `trial` reads them; a line that begins with `# ` is a heading. There are 68 rows.
pub(crate) const ROWS: &str = r#"# the sessions of the root's README
last up 1000 | up{job="x"} 1 900\n | any -> 0 | - | <{"metric":{"__name__":"up","job":"x"},"value":[1,"1"]}>
last up 1000 | up{job="x"} 1 900\nup{job="y"} 3 900\n | any -> 0 | - | <{"metric":{"__name__":"up","job":"x"},"value":[1,"1"]},{"metric":{"__name__":"up","job":"y"},"value":[1,"3"]}>
last up 300900 | up 1 900\n | any -> 0 | - | <>
# times, windows and words
last up 1000 | up 1 900\n | any -> 0 | - | <{"metric":{"__name__":"up"},"value":[1,"1"]}>
last up 1000 | up 1 900\nup 3 900\n | any -> 0 | - | <{"metric":{"__name__":"up"},"value":[1,"3"]}>
last up 1000 | up 3 900\nup 1 900\n | any -> 0 | - | <{"metric":{"__name__":"up"},"value":[1,"3"]}>
last up 1000 | up 3 901\nup 9 900\n | any -> 0 | - | <{"metric":{"__name__":"up"},"value":[1,"3"]}>
last up 1000 | - | any -> 0 | - | <>
last up 1000 | \n\r\n\r | any -> 0 | - | <>
last up 1000 | up 1 900 | any -> 0 | - | <{"metric":{"__name__":"up"},"value":[1,"1"]}>
last up 1000 | up 1 900\r\n | any -> 0 | - | <{"metric":{"__name__":"up"},"value":[1,"1"]}>
last up 1000 | up 1 900\r | any -> 0 | - | <{"metric":{"__name__":"up"},"value":[1,"1"]}>
last up 1000 | up 1 1000\n | any -> 0 | - | <{"metric":{"__name__":"up"},"value":[1,"1"]}>
last up 1000 | up 1 1001\n | any -> 0 | - | <>
last up 1000 | up 1 1000\nup 3 1001\n | any -> 0 | - | <{"metric":{"__name__":"up"},"value":[1,"1"]}>
last up 1000 | up 1 000000000000900\n | any -> 0 | - | <{"metric":{"__name__":"up"},"value":[1,"1"]}>
last up 1000 | down 7 950\nup 1 900\nupper 4 960\nu 5 970\n | any -> 0 | - | <{"metric":{"__name__":"up"},"value":[1,"1"]}>
last -- up 1000 | up 1 900\n | any -> 0 | - | <{"metric":{"__name__":"up"},"value":[1,"1"]}>
last up -- 1000 | up 1 900\n | any -> 0 | - | <{"metric":{"__name__":"up"},"value":[1,"1"]}>
last up 1000 -- | up 1 900\n | any -> 0 | - | <{"metric":{"__name__":"up"},"value":[1,"1"]}>
last up 00000000000000001000 | up 1 900\n | any -> 0 | - | <{"metric":{"__name__":"up"},"value":[1,"1"]}>
last up 299999 | up 1 0\n | any -> 0 | - | <{"metric":{"__name__":"up"},"value":[299.999,"1"]}>
last up 300000 | up 1 0\n | any -> 0 | - | <>
last up 300000 | up 1 1\n | any -> 0 | - | <{"metric":{"__name__":"up"},"value":[300,"1"]}>
last a:b_C9 0 | a:b_C9 -0.50 0\n | any -> 0 | - | <{"metric":{"__name__":"a:b_C9"},"value":[0,"-0.5"]}>
last x 281474976710655 | x .5 281474976710655\n | any -> 0 | - | <{"metric":{"__name__":"x"},"value":[281474976710.655,"0.5"]}>
last x 1 | x 5. 1\n | any -> 0 | - | <{"metric":{"__name__":"x"},"value":[0.001,"5"]}>
last x 10 | x 999999999999999999 10\n | any -> 0 | - | <{"metric":{"__name__":"x"},"value":[0.01,"999999999999999999"]}>
last x 10 | x -0.00000000000000001 10\n | any -> 0 | - | <{"metric":{"__name__":"x"},"value":[0.01,"-1e-17"]}>
# lines of the format's description
last up 1000 | up 1 900 \n | any -> 0 | - | <{"metric":{"__name__":"up"},"value":[1,"1"]}>
last up 1000 |  up  1\t900\n | any -> 0 | - | <{"metric":{"__name__":"up"},"value":[1,"1"]}>
last up 1000 | up{} 1 900\n | any -> 0 | - | <{"metric":{"__name__":"up"},"value":[1,"1"]}>
last up 1000 | # HELP up\nup +1.0e0 900\n# EOF\n | any -> 0 | - | <{"metric":{"__name__":"up"},"value":[1,"1"]}>
last up 1000 | up 1 000000000000000000900\n | any -> 0 | - | <{"metric":{"__name__":"up"},"value":[1,"1"]}>
last up 1700000000000 | up 1\n | any -> 0 | - | <{"metric":{"__name__":"up"},"value":[1700000000,"1"]}>
# lines that are skipped, and values that are no numbers
last up 1000 | up\nup 1 900\nup 3 -900\n9up 3 900\n | any -> 0 | - | <{"metric":{"__name__":"up"},"value":[1,"1"]}>
last up 1000 | up 1 900\nup 3 900 1\nup NaN 950\n | any -> 0 | - | <{"metric":{"__name__":"up"},"value":[1,"1"]}>
last up 1000 | up 3 281474976710656\nup 1e400 900\n | any -> 0 | - | <>
last up 1000 | up 1 900\r\r\n | any -> 0 | - | <>
# each series of the name, in the order of their labels
last a 1000 | a{j="y"} 2 900\na{j="x",i=""} 1 900\nb{j="x"} 3 900\na{i="q\\""} 4 900\na{j="x"} 5 800\n | any -> 0 | - | <{"metric":{"__name__":"a","i":"q\\""},"value":[1,"4"]},{"metric":{"__name__":"a","j":"x"},"value":[1,"1"]},{"metric":{"__name__":"a","j":"y"},"value":[1,"2"]}>
# a summary as a Go program exposes it
last process_virtual_memory_max_bytes 1700000000000 | # TYPE go_gc_duration_seconds summary\ngo_gc_duration_seconds{quantile="0"} 2.7667e-05\nprocess_virtual_memory_max_bytes 1.8446744073709552e+19\n | any -> 0 | - | <{"metric":{"__name__":"process_virtual_memory_max_bytes"},"value":[1700000000,"18446744073709552000"]}>
last go_gc_duration_seconds 1700000000000 | go_gc_duration_seconds{quantile="0"} 2.7667e-05\ngo_gc_duration_seconds{quantile="1"} NaN\n | any -> 0 | - | <{"metric":{"__name__":"go_gc_duration_seconds","quantile":"0"},"value":[1700000000,"0.000027667"]}>
# names of 4,096 bytes are read, longer ones are skipped; lines go over the pieces' ends
last up 1000 | «4096×a» 1 900\n«1×up 3 500\n» | all -> 0 | - | <{"metric":{"__name__":"up"},"value":[1,"3"]}>
last up 1000 | «4097×a» 1 900\n«1×up 3 500\n» | all -> 0 | - | <{"metric":{"__name__":"up"},"value":[1,"3"]}>
last up 1000 | «70000×a» 1 900\n«1×up 3 500\n» | all -> 0 | - | <{"metric":{"__name__":"up"},"value":[1,"3"]}>
last up 1000 | «200000×a» 1 900\n«20000×up 3 500\n» | all -> 0 | - | <{"metric":{"__name__":"up"},"value":[1,"3"]}>
last up 1000 | «2×a» 1 900\n«20000×up 3 500\n» | all -> 0 | - | <{"metric":{"__name__":"up"},"value":[1,"3"]}>
# words that are no command
 | up 1 900\n | all -> 2 | usage | -
frobnicate | up 1 900\n | all -> 2 | usage | -
replay x | up 1 900\n | all -> 2 | usage | -
replay -- -- | up 1 900\n | all -> 2 | usage | -
-- replay | up 1 900\n | all -> 2 | usage | -
last | up 1 900\n | all -> 2 | usage | -
last up | up 1 900\n | all -> 2 | usage | -
last up 1000 1 | up 1 900\n | all -> 2 | usage | -
last up 10x0 | up 1 900\n | all -> 2 | usage | -
last up 281474976710656 | up 1 900\n | all -> 2 | usage | -
last up 000000000000000001000 | up 1 900\n | all -> 2 | usage | -
last 9up 1000 | up 1 900\n | all -> 2 | usage | -
last -up 1000 | up 1 900\n | all -> 2 | usage | -
last -- -- up 1000 | up 1 900\n | all -> 2 | usage | -
-- last up 1000 | up 1 900\n | all -> 2 | usage | -
Last up 1000 | up 1 900\n | all -> 2 | usage | -
# reads and writes that fail, by pieces of five bytes: what was written is the front of the answer
last up 1000 | up 1 900\n | 5 read 0 -> 6 | input fault | -
last up 1000 | up 1 900\n | 5 read 2 -> 6 | input fault | -
last up 1000 | up 1 900 \n | 5 read 2 -> 6 | input fault | -
last up 1000 | up 1 900\n | 5 write 0 -> 7 | output fault | -
last up 1000 | up 1 900\n | 5 write 2 -> 7 | output fault | {"status":"#;
