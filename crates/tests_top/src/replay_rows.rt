//! Rows of `replay`, worked out by hand.

/// Rows as `trial` reads them; a line that begins with `# ` is a heading. There are 30 rows.
pub(crate) const ROWS: &str =
    r#"# imports and queries; the second row is the session of the root's README
replay | - | any -> 0 | - | -
replay | prom 0\na{j="x"} 1 1000\n.\nquery 0 1000 a{j!="y"}\nprom 0\na{j="z"} 2 1000\n.\nend 0\nend 0\n | any -> 0 | - | accepted 1 batches 1 rows 0 skipped\nrun 0\naccepted 1 batches 1 rows 0 skipped\n<{"metric":{"__name__":"a","j":"x"},"value":[1,"1"]}>refused unknown run 0\n
# a summary as a Go program exposes it, read at the time of the import
replay | prom 1700000000000\n# HELP go_gc_duration_seconds A summary of GC pauses.\n# TYPE go_gc_duration_seconds summary\ngo_gc_duration_seconds{quantile="0"} 2.7667e-05\ngo_gc_duration_seconds{quantile="1"} NaN\ngo_gc_duration_seconds_sum 0.000198\nprocess_virtual_memory_max_bytes 1.8446744073709552e+19\n.\nquery 1 1700000000000 process_virtual_memory_max_bytes\nend 1\nquery 1 1700000000000 go_gc_duration_seconds{quantile="0"}\nend 1 | any -> 0 | - | accepted 1 batches 3 rows 0 skipped\nrun 1\n<{"metric":{"__name__":"process_virtual_memory_max_bytes"},"value":[1700000000,"18446744073709552000"]}>run 1\n<{"metric":{"__name__":"go_gc_duration_seconds","quantile":"0"},"value":[1700000000,"0.000027667"]}>
# a body without rows, and one whose lines are skipped
replay | prom 0\n.\nprom 7\r\n\r\n9\nup 1 -1\nup NaN\nup{} 3\n.\r\nquery 000 0300 up\nend 0\n | any -> 0 | - | accepted 0 batches 0 rows 0 skipped\naccepted 1 batches 1 rows 2 skipped\nrun 0\n<{"metric":{"__name__":"up"},"value":[0.3,"3"]}>
# series are read one by one, also those without a sample in the window
replay | prom 0\nb 1 1000\na 2 1001\nc 3 9\n.\nquery 5 1000 {}\nrun 5\nrun 5\nprom 0\nd 4 1000\n.\nrun 5\nrun 5\nend 5\nrun 5\n | any -> 0 | - | accepted 1 batches 3 rows 0 skipped\nrun 5\nread\nread\naccepted 1 batches 1 rows 0 skipped\nread\ncomplete\n<{"metric":{"__name__":"b"},"value":[1,"1"]},{"metric":{"__name__":"c"},"value":[1,"3"]}>refused unknown run 5\n
# refusals, in their order
replay | query 1 0 up\nquery 1 281474976710656 sum(up)\nquery 2 281474976710656 sum(up)\nquery 2 281474976710655 sum(up)\nquery 2 281474976710655 up\nclose 1\nclose 1\nrun 1\nend 1\nend 2\n | any -> 0 | - | run 1\nrefused run taken 1\nrefused bad range\nrefused not built\nrun 2\nclosed\nrefused unknown run 1\nrefused unknown run 1\nrefused unknown run 1\n<>
# lines of JSON: a null gives no row, and a line that is no such object is skipped
replay | json 0\n{"metric":{"__name__":"m","job":"x"},"values":[1,2.5,null],"timestamps":[10,20,30]}\n \n{"metric":{"__name__":"m","job":"x"},"values":[1,2.5,null],"timestamps":[10,20]}\n.\nquery 0 30 m\nend 0\njson 1\n.\n | any -> 0 | - | accepted 1 batches 2 rows 1 skipped\nrun 0\n<{"metric":{"__name__":"m","job":"x"},"value":[0.03,"2.5"]}>accepted 0 batches 0 rows 0 skipped\n
# repeated samples stay, and the greatest of one time is the last
replay | prom 0\nup 2 900\nup 2 900\nup 1 900\n.\nquery 0 900 up\nend 0\n | any -> 0 | - | accepted 1 batches 3 rows 0 skipped\nrun 0\n<{"metric":{"__name__":"up"},"value":[0.9,"2"]}>
# lines outside the grammar: what was printed before stays, and nothing of a body that is cut off is imported
replay | \n | 5 -> 1 | bad script line 1 | -
replay | prom 0\n | 5 -> 1 | bad script line 1 | -
replay | prom 0\nup 1\n | 5 -> 1 | bad script line 1 | -
replay | close 1\nprom 0\nup 1\n..\n . \n | 5 -> 1 | bad script line 2 | refused unknown run 1\n
replay | prom 0\nup 1\n.\n.\n | 5 -> 1 | bad script line 4 | accepted 1 batches 1 rows 0 skipped\n
replay | close 1\nflush\nclose 1\n | 5 -> 1 | bad script line 2 | refused unknown run 1\n
replay | close 1 \n | 5 -> 1 | bad script line 1 | -
replay | query 0 0 \n | 5 -> 1 | bad script line 1 | -
replay | query 1000 0 up\n | 5 -> 1 | bad script line 1 | -
replay | prom 281474976710656\n.\n | 5 -> 1 | bad script line 1 | -
# reads and writes that fail: what was written is what the commands print whose lines came whole, and a first part of
# it where the output fails
replay | close 1\nprom 0\nup 1\n.\nclose 2\n | 10 read 0 -> 6 | input fault | -
replay | close 1\nprom 0\nup 1\n.\nclose 2\n | 10 read 2 -> 6 | input fault | refused unknown run 1\n
replay | close 1\nclose 2\nclose 3\nclose 4\n | 10 read 3 -> 6 | input fault | refused unknown run 1\nrefused unknown run 2\nrefused unknown run 3\n
# the end of the input is met once: a fourth read would fail
replay | close 1\nclose 2 | 10 read 3 -> 0 | - | refused unknown run 1\nrefused unknown run 2\n
replay | close 1\nprom 0\nup 1\n.\nclose 2\n | 10 write 0 -> 7 | output fault | -
replay | close 1\nprom 0\nup 1\n.\nclose 2\n | 10 write 1 -> 7 | output fault | refused un
replay | close 1\nprom 0\nup 1\n.\nclose 2\n | 10 write 3 -> 7 | output fault | refused unknown run 1\n
replay | close 1\nprom 0\nup 1\n.\nclose 2\n | 10 write 4 -> 7 | output fault | refused unknown run 1\naccepted 1
# a run answers over what was accepted when it was begun; a and b are selected, though a has no sample by then
replay | prom 0\nb 1 900\n.\nprom 0\na 2 1001\n.\nprom 0\nb 3 950\n.\nprom 0\nother 4 900\n.\nquery 7 1000 {__name__!="other"}\nprom 0\nb 9 999\n.\nquery 7 1000 {__name__!="other"}\nclose 8\nrun 7\nrun 7\nrun 7\nrun 7\nrun 8\nend 7\nclose 7\n | all -> 0 | - | accepted 1 batches 1 rows 0 skipped\naccepted 1 batches 1 rows 0 skipped\naccepted 1 batches 1 rows 0 skipped\naccepted 1 batches 1 rows 0 skipped\nrun 7\naccepted 1 batches 1 rows 0 skipped\nrefused run taken 7\nrefused unknown run 8\nread\nread\ncomplete\ncomplete\nrefused unknown run 8\n<{"metric":{"__name__":"b"},"value":[1,"3"]}>refused unknown run 7\n
# 64 runs are open at once, and no more
replay | «64×query # 1000 {__name__!="other"}\n»query 64 1000 {__name__!="other"}\nclose 3\nquery 64 1000 {__name__!="other"}\n | all -> 0 | - | «64×run #\n»refused views full\nclosed\nrun 64\n
# 4,096 batches wait, and no more
replay | «4096×prom 0\na 1 #\n.\n»prom 0\na 1 1\n.\n | all -> 0 | - | «4096×accepted 1 batches 1 rows 0 skipped\n»refused pending full\n
# a body of 20,001 rows makes three batches, and a line of 10,001 rows one
replay | «64×query # 5 up\n»query 64 5 up\nclose 63\nquery 64 5 up\nprom 5\n«20001×up 1\n».\njson 5\n{"metric":{"a":"b"},"values":[0«10000×,1»],"timestamps":[0«10000×,1»]}\n.\n | all -> 0 | - | «64×run #\n»refused views full\nclosed\nrun 64\naccepted 3 batches 20001 rows 0 skipped\naccepted 1 batches 10001 rows 0 skipped\n"#;
